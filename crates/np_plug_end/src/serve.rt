//! How the plug-in serves a call.

ghost use Rattle.std.specs.Prelude.{◌≡◌, ◌++◌, ◌<◌, OnOk, OnErr};
ghost use Rattle.np_model.specs.PluginPlan.{control_after_call, lines_of_call, serve_plan};

use crate::lines::push_new;
use crate::plug_core::Core;
use crate::rules::{answer, phase, place, reply};
use np_message::{Message, Payload};
use np_model::{Phase, PluginStage};
use np_proxy_release::Releases;
use np_values::NoMemory;
use np_wire::encode;

impl Core {
    ghost use Rattle.np_plug_end.specs.Core.{control_of, Moves, SameBut};

    /// Serves a call: what it changes, its line, and the reply.
    pub fn serve(&mut self, message: &Message) -> Result<(), NoMemory>
        ensures moves { OnOk result (Moves self.old self.new
            (serve_plan self.old.plugin (control_of self.old) message.now)) }
        ensures memory { OnErr result (control_of self.new ≡ control_of self.old) }
        ensures feed { self.new.feed ≡ self.old.feed }
    {
        let call = message.body();
        self.print(call)?;
        let reply = reply(self.plugin, call);
        let answer = Message::new(message.depth(), Releases::new(self.alloc), reply);
        encode(&answer, &mut self.outgoing)?;
        self.advance(call)
    }

    // The control after a call. It comes last, so that the control stays where memory runs out.
    fn advance(&mut self, call: &Payload) -> Result<(), NoMemory>
        ensures control { OnOk result (control_of self.new ≡
            control_after_call self.old.plugin (control_of self.old) call.now) }
        ensures memory { OnErr result (control_of self.new ≡ control_of self.old) }
        ensures same { SameBut self.old self.new }
    {
        match call {
            Payload::Hello { .. } => self.stage = PluginStage::Serving,
            Payload::Shutdown => self.stage = PluginStage::Ended,
            Payload::New { .. } => self.phases.push(phase(answer(self.plugin)))?,
            Payload::Destroy { instance } => {
                let place = place(*instance);
                if place < self.phases.len() {
                    self.phases[place] = Phase::Dead;
                }
            }
            _ => {}
        }
        Ok(())
    }

    // The lines of a call.
    fn print(&mut self, call: &Payload) -> Result<(), NoMemory>
        ensures journal { OnOk result (self.new.journal.items ≡
            self.old.journal.items ++ lines_of_call self.old.plugin call.now) }
        ensures same { self.new ≡ record self.old { journal = self.new.journal } }
    {
        match call {
            Payload::New { instance, .. } if self.plugin.new_handler.is_some() => {
                push_new(&mut self.journal, *instance)
            }
            _ => Ok(()),
        }
    }
}
