//! What a host end keeps.

ghost use Rattle.std.specs.Prelude.{◌≡◌, ◌++◌, ◌+◌, ◌<◌, ◌≤◌, ◌^◌, [], ◌∷◌, length, drop, true, List, ℕ};
ghost use Rattle.np_model.specs.Script.{commands_fit};

use np_model::{Page, PeerState, Phase, Stage};
use np_wire::Feed;
use std::alloc::Global;

/// What a host end keeps. Its page control is what stands in these fields, the commands that are left
/// being those from `next` on.
#[derive(Drop)]
pub struct Core {
    pub alloc: Global,
    pub page: Page,
    pub next: usize,
    pub phases: Vec<Phase>,
    pub peer: PeerState,
    pub stage: Stage,
    pub feed: Feed,
    pub outgoing: Vec<u8>,
    pub journal: Vec<u8>,
    ghost within: { next ≤ length page.commands },
    ghost fits: { commands_fit (length phases.items) (drop next page.commands) ≡ true },
}

impl Core {
    ghost use Rattle.std.specs.Prelude.{OnOk, IfOk, take};
    ghost use Rattle.np_model.specs.PagePlan.{page_start};
    ghost use Rattle.np_host_end.specs.Core.{control_of};

    /// The end of a page before anything was done.
    pub fn new(alloc: Global, page: Page) -> Core
        requires fits { commands_fit 0 page.commands ≡ true }
        ensures control { control_of result ≡ page_start page }
        ensures page { result.page ≡ page }
        ensures feed { result.feed ≡ record { consumed = 0; left = [] } }
        ensures outgoing { result.outgoing.items ≡ [] }
        ensures journal { result.journal.items ≡ [] }
    {
        Core {
            alloc,
            page,
            next: 0,
            phases: Vec::new(alloc),
            peer: PeerState::Compatible,
            stage: Stage::Begin,
            feed: Feed::new(alloc),
            outgoing: Vec::new(alloc),
            journal: Vec::new(alloc),
        }
    }
}
