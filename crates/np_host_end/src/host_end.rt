//! The browser end as its owner sees it.

ghost use Rattle.std.specs.Prelude.{◌≡◌, ◌+◌, ◌≤◌, ◌^◌, ◌++◌, [], List, ℕ, length, take, drop, IsOk, OnOk, OnErr, IfOk, true, false};
ghost use Rattle.np_model.specs.Script.{commands_fit};
ghost use Rattle.np_model.specs.Side.{SideState};
ghost use Rattle.np_model.specs.PagePlan.{PageControl};

use crate::State;
use crate::host_core::Core;
use np_endpoint::Endpoint;
use np_model::{Page, Refusal};
use np_values::NoMemory;
use std::alloc::Global;
use std::marker::Model;

/// The browser end of a page, as a machine from the plug-in's bytes to the page's. It reads and writes
/// nothing itself: its owner gives it bytes by `take`, lets it `run`, and writes out what is in
/// `outgoing` and `journal`. Where memory ran out it has failed for good, and what it has made since its
/// last call that went well is not to be written out any more. (This project's own.)
#[derive(Drop)]
pub struct HostEnd {
    core: Core,
    state: State,
    failed: bool,
}

impl Model for HostEnd {
    ghost use Rattle.std.specs.Prelude.{◌≡◌};
    ghost use Rattle.np_model.specs.declared.script.Page.{Page};
    ghost use Rattle.np_model.specs.declared.page.Stage.TheVariants.{Ended};
    ghost use Rattle.np_model.specs.PagePlan.{PageControl};
    ghost use Rattle.np_endpoint.specs.declared.halt.Halt.TheVariants.{Finished};
    ghost use Rattle.np_endpoint.specs.End.{EndState};
    ghost use Rattle.np_host_end.specs.HostEnd.{seen};

    ghost Value = { EndState Page PageControl };

    ghost view = { λ e. seen e.core e.state e.failed };

    // Finished is answered only where the page has ended.
    ghost invariant = { λ e. e.state ≡ Finished → e.core.stage ≡ Ended };
}

impl HostEnd {
    ghost use Rattle.np_model.specs.declared.script.Page.{Page};
    ghost use Rattle.np_model.specs.declared.page.Stage.TheVariants.{Ended};
    ghost use Rattle.np_model.specs.declared.refusal.Refusal.{Refusal};
    ghost use Rattle.np_model.specs.PagePlan.{peer_lost};
    ghost use Rattle.np_model.specs.Alone.{page_role};
    ghost use Rattle.np_endpoint.specs.declared.halt.Halt.TheVariants.{Waiting, Finished, Refused};
    ghost use Rattle.np_endpoint.specs.End.{StandsFor, Keeps, RestsAs, end_start, total_of};
    ghost use Rattle.np_endpoint.specs.Memory.{RunsOut};
    ghost use Rattle.np_host_end.specs.HostEnd.{StandsLost, KeepsLost};

    /// The end of a page before anything was done. It owns the page, keeps the allocator, and takes no
    /// memory yet.
    pub fn new(alloc: Global, page: Page) -> Result<HostEnd, NoMemory>
        requires fits { commands_fit 0 page.commands ≡ true }
        ensures made { IsOk result }
        ensures fresh { IfOk result (λ end. end ≡ end_start page_role page) }
        ensures stands { IfOk result (λ end. StandsFor page_role page [] [] [] end) }
        ensures total { IfOk result (λ end. total_of end ≡ 0) }
        ensures failed { IfOk result (λ end. end.failed ≡ false) }
    {
        Ok(HostEnd {
            core: Core::new(alloc, page),
            state: State::Waiting,
            failed: false,
        })
    }

    /// What `run` answered last; `Waiting` before the first run and after `gone`. A run that ran out of memory
    /// leaves it.
    pub fn state(&self) -> &State
        ensures same { result.now ≡ self.now.state }
    {
        &self.state
    }

    /// The bytes of the page's messages that were not cut off by `sent`.
    pub fn outgoing(&self) -> &[u8]
        ensures same { result.now ≡ self.now.outgoing }
    {
        self.core.outgoing.as_slice()
    }

    /// The bytes of the page's journal that were not cut off by `printed`.
    pub fn journal(&self) -> &[u8]
        ensures same { result.now ≡ self.now.journal }
    {
        self.core.journal.as_slice()
    }

    /// Gives it further bytes of the plug-in, in whatever chunks they come; they are copied. It takes at
    /// most 2^40 bytes in all. Once memory ran out, every later call of it and of `run` answers the same.
    pub fn take(&mut self, bytes: &[u8]) -> Result<(), NoMemory>
        requires room { total_of self.old + length bytes.now ≤ 2 ^ 40 }
        ensures stands { OnOk result ((page : Page) (got sent printed : List ℕ) →
            StandsFor page_role page got sent printed self.old →
            StandsFor page_role page (got ++ bytes.now) sent printed self.new) }
        ensures lost { OnOk result ((page : Page) (p : SideState PageControl) (sent printed : List ℕ) →
            StandsLost page p sent printed self.old → StandsLost page p sent printed self.new) }
        ensures same { OnOk result (self.new ≡ record self.old { unread = self.old.unread ++ bytes.now }) }
        ensures err { OnErr result (self.new.failed ≡ true) }
        ensures kept { OnErr result (self.new ≡ record self.old { failed = true }) }
        ensures again { self.old.failed ≡ true → OnOk result ⊥ }
    {
        if self.failed {
            return Err(NoMemory);
        }
        match self.core.feed.push(bytes) {
            Ok(()) => Ok(()),
            Err(NoMemory) => {
                self.failed = true;
                Err(NoMemory)
            }
        }
    }

    /// Cuts the first n bytes off `outgoing`, which were written to the plug-in; 0 cuts nothing off.
    pub fn sent(&mut self, n: usize)
        requires within { n ≤ length self.old.outgoing }
        ensures stands { (page : Page) (got sent printed : List ℕ) →
            StandsFor page_role page got sent printed self.old →
            StandsFor page_role page got (sent ++ take n self.old.outgoing) printed self.new }
        ensures lost { (page : Page) (p : SideState PageControl) (sent printed : List ℕ) →
            StandsLost page p sent printed self.old →
            StandsLost page p (sent ++ take n self.old.outgoing) printed self.new }
        ensures same { self.new ≡ record self.old { outgoing = drop n self.old.outgoing } }
    {
        self.core.outgoing.drain(..n);
    }

    /// Cuts the first n bytes off `journal`, which were printed; 0 cuts nothing off.
    pub fn printed(&mut self, n: usize)
        requires within { n ≤ length self.old.journal }
        ensures stands { (page : Page) (got sent printed : List ℕ) →
            StandsFor page_role page got sent printed self.old →
            StandsFor page_role page got sent (printed ++ take n self.old.journal) self.new }
        ensures lost { (page : Page) (p : SideState PageControl) (sent printed : List ℕ) →
            StandsLost page p sent printed self.old →
            StandsLost page p sent (printed ++ take n self.old.journal) self.new }
        ensures same { self.new ≡ record self.old { journal = drop n self.old.journal } }
    {
        self.core.journal.drain(..n);
    }

    /// Continues until it waits for a message that isn't whole yet, has ended, or refuses a message. It is
    /// finished where the reply to Shutdown was delivered, or the page ended after the plug-in was lost.
    /// After a refusal every later run answers the same until `gone`, and for good once memory ran out.
    pub fn run(&mut self) -> Result<State, NoMemory>
        ensures keeps { OnOk result (Keeps page_role self.old self.new) }
        ensures rests { IfOk result (λ state. RestsAs page_role self.new state) }

        // A page whose plug-in is lost continues alone, and waits for nothing.
        ensures keeps_lost { OnOk result (KeepsLost self.old self.new) }
        ensures lost { IfOk result (λ state.
            (page : Page) (p : SideState PageControl) (sent printed : List ℕ) →
            StandsLost page p sent printed self.old → self.new.control.stage ≡ Ended) }
        ensures total { OnOk result (total_of self.new ≡ total_of self.old) }
        ensures failed { OnOk result (self.new.failed ≡ false) }
        ensures err { OnErr result (self.new.failed ≡ true) }
        ensures state { OnErr result (self.new.state ≡ self.old.state) }
        ensures memory { OnErr result (RunsOut page_role self.old self.new) }

        // Out of memory, a refusal and the end are answered again from then on, and nothing changes.
        ensures again { self.old.failed ≡ true → OnOk result ⊥ }
        ensures stays { self.old.failed ≡ true → self.new ≡ self.old }
        ensures refused { (refusal : Refusal) → self.old.state ≡ Refused refusal →
            self.old.failed ≡ false → (result ≡ Ok (Refused refusal)) × (self.new ≡ self.old) }
        ensures finished { self.old.state ≡ Finished → self.old.failed ≡ false →
            (result ≡ Ok Finished) × (self.new ≡ self.old) }
    {
        if self.failed {
            return Err(NoMemory);
        }
        match self.state {
            State::Waiting => {}
            State::Finished | State::Refused(_) => return Ok(self.state),
        }
        match self.core.run() {
            Ok(state) => {
                self.state = state;
                Ok(state)
            }
            Err(NoMemory) => {
                self.failed = true;
                Err(NoMemory)
            }
        }
    }

    /// The plug-in is lost; the page continues alone at the next run, without a message and a call. It may be
    /// called at any time, and again.
    pub fn gone(&mut self)
        ensures lost { (page : Page) (got sent printed : List ℕ) →
            (old : StandsFor page_role page got sent printed self.old) →
            StandsLost page old.side sent printed self.new }
        ensures again { (page : Page) (p : SideState PageControl) (sent printed : List ℕ) →
            StandsLost page p sent printed self.old → StandsLost page p sent printed self.new }
        ensures same { self.new ≡ record self.old { control = peer_lost self.old.control; state = Waiting } }
        ensures total { total_of self.new ≡ total_of self.old }
        ensures failed { self.new.failed ≡ self.old.failed }
        ensures outgoing { self.new.outgoing ≡ self.old.outgoing }
        ensures journal { self.new.journal ≡ self.old.journal }
    {
        self.core.lose();
        self.state = State::Waiting;
    }
}

impl Endpoint for HostEnd {
    ghost use Rattle.np_model.specs.declared.script.Page.{Page};
    ghost use Rattle.np_model.specs.PagePlan.{PageControl};
    ghost use Rattle.np_model.specs.Alone.{page_role};

    ghost Script = { Page };

    ghost Control = { PageControl };

    ghost role_of = { page_role };

    ghost seen = { λ e. e };

    fn outgoing(&self) -> &[u8] {
        HostEnd::outgoing(self)
    }

    fn journal(&self) -> &[u8] {
        HostEnd::journal(self)
    }

    fn sent(&mut self, n: usize) {
        HostEnd::sent(self, n);
    }

    fn printed(&mut self, n: usize) {
        HostEnd::printed(self, n);
    }

    fn take(&mut self, bytes: &[u8]) -> Result<(), NoMemory> {
        HostEnd::take(self, bytes)
    }

    fn run(&mut self) -> Result<State, NoMemory> {
        HostEnd::run(self)
    }
}
