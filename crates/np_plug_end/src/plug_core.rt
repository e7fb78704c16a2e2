//! What a plug-in end keeps.

use np_model::{Phase, Plugin, PluginStage};
use np_wire::Feed;
use std::alloc::Global;

/// What a plug-in end keeps. Its control is what stands in `stage` and `phases`.
#[derive(Drop)]
pub struct Core {
    pub alloc: Global,
    pub plugin: Plugin,
    pub stage: PluginStage,
    pub phases: Vec<Phase>,
    pub feed: Feed,
    pub outgoing: Vec<u8>,
    pub journal: Vec<u8>,
}

impl Core {
    ghost use Rattle.std.specs.Prelude.{◌≡◌, []};
    ghost use Rattle.np_model.specs.PluginPlan.{plugin_start};
    ghost use Rattle.np_plug_end.specs.Core.{control_of};

    /// The end of a plug-in before anything was done.
    pub fn new(alloc: Global, plugin: Plugin) -> Core
        ensures control { control_of result ≡ plugin_start }
        ensures plugin { result.plugin ≡ plugin }
        ensures feed { result.feed ≡ record { consumed = 0; left = [] } }
        ensures outgoing { result.outgoing.items ≡ [] }
        ensures journal { result.journal.items ≡ [] }
    {
        Core {
            alloc,
            plugin,
            stage: PluginStage::Begin,
            phases: Vec::new(alloc),
            feed: Feed::new(alloc),
            outgoing: Vec::new(alloc),
            journal: Vec::new(alloc),
        }
    }
}
