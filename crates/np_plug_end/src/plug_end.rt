//! The plug-in end as its owner sees it.

ghost use Rattle.std.specs.Prelude.{◌≡◌, ◌+◌, ◌≤◌, ◌^◌, ◌++◌, [], List, ℕ, length, take, drop, IsOk, OnOk, OnErr, IfOk, true, false};

use crate::PlugState;
use crate::plug_core::Core;
use np_endpoint::Endpoint;
use np_model::{Plugin, Refusal};
use np_values::NoMemory;
use std::alloc::Global;
use std::marker::Model;

/// The plug-in end, as a machine from the host's bytes to the plug-in's. It reads and writes nothing
/// itself: its owner gives it bytes by `take`, lets it `run`, and writes out what is in `outgoing`
/// and `journal`. Where memory ran out it has failed for good, and what it has made since its last
/// call that went well is not to be written out any more. (This project's own.)
#[derive(Drop)]
pub struct PlugEnd {
    core: Core,
    state: PlugState,
    failed: bool,
}

impl Model for PlugEnd {
    ghost use Rattle.std.specs.Prelude.{◌≡◌};
    ghost use Rattle.np_model.specs.declared.plugin.PluginStage.TheVariants.{Ended};
    ghost use Rattle.np_model.specs.declared.script.Plugin.{Plugin};
    ghost use Rattle.np_model.specs.PluginPlan.{PluginControl};
    ghost use Rattle.np_endpoint.specs.declared.halt.Halt.TheVariants.{Finished};
    ghost use Rattle.np_endpoint.specs.End.{EndState};
    ghost use Rattle.np_plug_end.specs.PlugEnd.{seen};

    ghost Value = { EndState Plugin PluginControl };

    ghost view = { λ e. seen e.core e.state e.failed };

    // Finished is answered only after Shutdown was served.
    ghost invariant = { λ e. e.state ≡ Finished → e.core.stage ≡ Ended };
}

impl PlugEnd {
    ghost use Rattle.np_model.specs.declared.script.Plugin.{Plugin};
    ghost use Rattle.np_model.specs.Alone.{plugin_role};
    ghost use Rattle.np_model.specs.declared.refusal.Refusal.{Refusal};
    ghost use Rattle.np_endpoint.specs.declared.halt.Halt.TheVariants.{Waiting, Finished, Refused};
    ghost use Rattle.np_endpoint.specs.End.{StandsFor, Keeps, RestsAs, end_start, total_of};
    ghost use Rattle.np_endpoint.specs.Memory.{RunsOut};

    /// The end of a plug-in before anything was done. It takes no memory yet.
    pub fn new(alloc: Global, plugin: Plugin) -> Result<PlugEnd, NoMemory>
        ensures made { IsOk result }
        ensures fresh { IfOk result (λ end. end ≡ end_start plugin_role plugin) }
        ensures stands { IfOk result (λ end. StandsFor plugin_role plugin [] [] [] end) }
        ensures total { IfOk result (λ end. total_of end ≡ 0) }
        ensures failed { IfOk result (λ end. end.failed ≡ false) }
    {
        Ok(PlugEnd {
            core: Core::new(alloc, plugin),
            state: PlugState::Waiting,
            failed: false,
        })
    }

    /// What `run` answered last; `Waiting` before the first run. A run that ran out of memory leaves it.
    pub fn state(&self) -> &PlugState
        ensures same { result.now ≡ self.now.state }
    {
        &self.state
    }

    /// The bytes of the plug-in's messages that were not cut off by `sent`.
    pub fn outgoing(&self) -> &[u8]
        ensures same { result.now ≡ self.now.outgoing }
    {
        self.core.outgoing.as_slice()
    }

    /// The bytes of the plug-in's journal that were not cut off by `printed`.
    pub fn journal(&self) -> &[u8]
        ensures same { result.now ≡ self.now.journal }
    {
        self.core.journal.as_slice()
    }

    /// Gives it further bytes of the host, in whatever chunks they come; they are copied. It takes at
    /// most 2^40 bytes in all. After out of memory every later call of it and of `run` answers the
    /// same.
    pub fn take(&mut self, bytes: &[u8]) -> Result<(), NoMemory>
        requires room { total_of self.old + length bytes.now ≤ 2 ^ 40 }
        ensures stands { OnOk result ((plugin : Plugin) (got sent printed : List ℕ) →
            StandsFor plugin_role plugin got sent printed self.old →
            StandsFor plugin_role plugin (got ++ bytes.now) sent printed self.new) }
        ensures same { OnOk result (self.new ≡ record self.old { unread = self.old.unread ++ bytes.now }) }
        ensures err { OnErr result (self.new.failed ≡ true) }
        ensures kept { OnErr result (self.new ≡ record self.old { failed = true }) }
        ensures again { self.old.failed ≡ true → OnOk result ⊥ }
    {
        if self.failed {
            return Err(NoMemory);
        }
        match self.core.feed.push(bytes) {
            Ok(()) => Ok(()),
            Err(NoMemory) => {
                self.failed = true;
                Err(NoMemory)
            }
        }
    }

    /// Cuts the first n bytes off `outgoing`, which were written to the host; 0 cuts nothing off.
    pub fn sent(&mut self, n: usize)
        requires within { n ≤ length self.old.outgoing }
        ensures stands { (plugin : Plugin) (got sent printed : List ℕ) →
            StandsFor plugin_role plugin got sent printed self.old →
            StandsFor plugin_role plugin got (sent ++ take n self.old.outgoing) printed self.new }
        ensures same { self.new ≡ record self.old { outgoing = drop n self.old.outgoing } }
    {
        self.core.outgoing.drain(..n);
    }

    /// Cuts the first n bytes off `journal`, which were printed; 0 cuts nothing off.
    pub fn printed(&mut self, n: usize)
        requires within { n ≤ length self.old.journal }
        ensures stands { (plugin : Plugin) (got sent printed : List ℕ) →
            StandsFor plugin_role plugin got sent printed self.old →
            StandsFor plugin_role plugin got sent (printed ++ take n self.old.journal) self.new }
        ensures same { self.new ≡ record self.old { journal = drop n self.old.journal } }
    {
        self.core.journal.drain(..n);
    }

    /// Serves what has come whole, until it waits for a message that isn't whole yet, was shut down, or
    /// refuses a message. It is finished where the reply to Shutdown is in `outgoing`, or was cut off it;
    /// what came after Shutdown is left unread. After that, after a refusal and once memory ran out every
    /// later run answers the same.
    pub fn run(&mut self) -> Result<PlugState, NoMemory>
        ensures keeps { OnOk result (Keeps plugin_role self.old self.new) }
        ensures rests { IfOk result (λ state. RestsAs plugin_role self.new state) }
        ensures total { OnOk result (total_of self.new ≡ total_of self.old) }
        ensures failed { OnOk result (self.new.failed ≡ false) }
        ensures err { OnErr result (self.new.failed ≡ true) }
        ensures state { OnErr result (self.new.state ≡ self.old.state) }
        ensures memory { OnErr result (RunsOut plugin_role self.old self.new) }

        // Out of memory, a refusal and the end are answered again from then on, and nothing changes.
        ensures again { self.old.failed ≡ true → OnOk result ⊥ }
        ensures stays { self.old.failed ≡ true → self.new ≡ self.old }
        ensures refused { (refusal : Refusal) → self.old.state ≡ Refused refusal →
            self.old.failed ≡ false → (result ≡ Ok (Refused refusal)) × (self.new ≡ self.old) }
        ensures finished { self.old.state ≡ Finished → self.old.failed ≡ false →
            (result ≡ Ok Finished) × (self.new ≡ self.old) }
    {
        if self.failed {
            return Err(NoMemory);
        }
        match self.state {
            PlugState::Waiting => {}
            PlugState::Finished | PlugState::Refused(_) => return Ok(self.state),
        }
        match self.core.run() {
            Ok(state) => {
                self.state = state;
                Ok(state)
            }
            Err(NoMemory) => {
                self.failed = true;
                Err(NoMemory)
            }
        }
    }
}

impl Endpoint for PlugEnd {
    ghost use Rattle.np_model.specs.declared.script.Plugin.{Plugin};
    ghost use Rattle.np_model.specs.PluginPlan.{PluginControl};
    ghost use Rattle.np_model.specs.Alone.{plugin_role};

    ghost Script = { Plugin };

    ghost Control = { PluginControl };

    ghost role_of = { plugin_role };

    ghost seen = { λ e. e };

    fn outgoing(&self) -> &[u8] {
        PlugEnd::outgoing(self)
    }

    fn journal(&self) -> &[u8] {
        PlugEnd::journal(self)
    }

    fn sent(&mut self, n: usize) {
        PlugEnd::sent(self, n);
    }

    fn printed(&mut self, n: usize) {
        PlugEnd::printed(self, n);
    }

    fn take(&mut self, bytes: &[u8]) -> Result<(), NoMemory> {
        PlugEnd::take(self, bytes)
    }

    fn run(&mut self) -> Result<PlugState, NoMemory> {
        PlugEnd::run(self)
    }
}
