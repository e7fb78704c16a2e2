//! The run of an end, from message to message.

ghost use Rattle.std.specs.Prelude.{◌≡◌, OnOk, OnErr, IfOk, false};
ghost use Rattle.np_model.specs.PluginRun.{IsListening};

use crate::plug_core::Core;
use np_endpoint::Halt;
use np_model::{PluginStage, Refusal};
use np_model_laws::plugin_more_messages_law;
use np_values::NoMemory;
use np_wire::FeedError;

impl Core {
    ghost use Rattle.np_model.specs.Alone.{plugin_role};
    ghost use Rattle.np_model.specs.Side.{SideState};
    ghost use Rattle.np_model.specs.PluginPlan.{PluginControl};
    ghost use Rattle.np_endpoint.specs.Memory.{RanOut};
    ghost use Rattle.np_endpoint.specs.End.{Keeps, RestsAs, total_of};
    ghost use Rattle.np_plug_end.specs.PlugEnd.{seen};
    ghost use Rattle.np_plug_end.specs.Core.{control_of, Listened, RanOutListening};
    ghost use Rattle.np_endpoint.specs.declared.halt.Halt.TheVariants.{Waiting};

    /// Serves what has come whole, until it waits or was shut down, or refuses a message.
    pub fn run(&mut self) -> Result<Halt, NoMemory>
        ensures keeps { IfOk result (λ state.
            Keeps plugin_role (seen self.old Waiting false) (seen self.new state false)) }
        ensures rests { IfOk result (λ state. RestsAs plugin_role (seen self.new state false) state) }
        ensures total { OnOk result (total_of (seen self.new Waiting false) ≡
            total_of (seen self.old Waiting false)) }
        ensures memory { OnErr result ((p : SideState PluginControl) → p.control ≡ control_of self.old →
            RanOut (plugin_role self.old.plugin) p self.old.feed.left (control_of self.new) self.new.feed.left) }
    {
        plugin_more_messages_law();
        loop {
            match self.stage {
                PluginStage::Ended => return Ok(Halt::Finished),
                PluginStage::Begin | PluginStage::Serving => {
                    if let Some(state) = self.listen()? {
                        return Ok(state);
                    }
                }
            }
        }
    }

    /// Meets the next message; where it can't continue, what it waits for or refuses.
    fn listen(&mut self) -> Result<Option<Halt>, NoMemory>
        requires listens { IsListening self.old.stage }
        ensures listened { IfOk result (λ halt. Listened self.old self.new halt) }
        ensures memory { OnErr result (RanOutListening self.old self.new) }
        ensures total { OnOk result (total_of (seen self.new Waiting false) ≡
            total_of (seen self.old Waiting false)) }
    {
        let at = self.feed.consumed();
        match self.feed.next() {
            Ok(None) => Ok(Some(Halt::Waiting)),
            Ok(Some(message)) => {
                if let Some(fault) = self.fault(&message) {
                    return Ok(Some(Halt::Refused(fault.refusal(at))));
                }
                self.serve(&message)?;
                Ok(None)
            }
            Err(FeedError::Wire(error)) => Ok(Some(Halt::Refused(Refusal::of_fault(error)))),
            Err(FeedError::NoMemory) => Err(NoMemory),
        }
    }
}
