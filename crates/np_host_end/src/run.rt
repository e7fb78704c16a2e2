//! The run of an end, from message to message.

ghost use Rattle.std.specs.Prelude.{◌≡◌, OnOk, OnErr, IfOk, false};
ghost use Rattle.np_model.specs.declared.page.Stage.TheVariants.{Awaiting};

use crate::host_core::Core;
use np_endpoint::Halt;
use np_model::{Outstanding, Refusal, Stage};
use np_model_laws::more_messages_law;
use np_values::NoMemory;
use np_wire::FeedError;

impl Core {
    ghost use Rattle.np_model.specs.Alone.{page_role};
    ghost use Rattle.np_endpoint.specs.End.{Keeps, RestsAs, total_of};
    ghost use Rattle.np_host_end.specs.HostEnd.{KeepsLost, seen};
    ghost use Rattle.np_model.specs.Side.{SideState};
    ghost use Rattle.np_model.specs.PagePlan.{PageControl};
    ghost use Rattle.np_endpoint.specs.Memory.{RanOut};
    ghost use Rattle.np_host_end.specs.Core.{control_of, Listened, RanOutListening};
    ghost use Rattle.np_endpoint.specs.declared.halt.Halt.TheVariants.{Waiting};

    /// Continues until the page waits or has ended, or refuses a message.
    pub fn run(&mut self) -> Result<Halt, NoMemory>
        ensures keeps { IfOk result (λ state.
            Keeps page_role (seen self.old Waiting false) (seen self.new state false)) }
        ensures lost { IfOk result (λ state.
            KeepsLost (seen self.old Waiting false) (seen self.new state false)) }
        ensures rests { IfOk result (λ state. RestsAs page_role (seen self.new state false) state) }
        ensures total { OnOk result (total_of (seen self.new Waiting false) ≡
            total_of (seen self.old Waiting false)) }
        ensures memory { OnErr result ((p : SideState PageControl) → p.control ≡ control_of self.old →
            RanOut (page_role self.old.page) p self.old.feed.left (control_of self.new) self.new.feed.left) }
    {
        more_messages_law();
        loop {
            match self.stage {
                Stage::Ended => return Ok(Halt::Finished),
                Stage::Awaiting(call) => {
                    if let Some(state) = self.listen(call)? {
                        return Ok(state);
                    }
                }
                Stage::Begin | Stage::Ready | Stage::Unanswered(_) => self.act()?,
            }
        }
    }

    /// Meets the next message; where it can't continue, what it waits for or refuses.
    fn listen(&mut self, call: Outstanding) -> Result<Option<Halt>, NoMemory>
        requires stage { self.old.stage ≡ Awaiting call }
        ensures listened { IfOk result (λ halt. Listened self.old self.new halt) }
        ensures memory { OnErr result (RanOutListening self.old self.new) }
        ensures total { OnOk result (total_of (seen self.new Waiting false) ≡
            total_of (seen self.old Waiting false)) }
    {
        let at = self.feed.consumed();
        match self.feed.next() {
            Ok(None) => Ok(Some(Halt::Waiting)),
            Ok(Some(message)) => match self.meet(call, &message)? {
                None => Ok(None),
                Some(fault) => Ok(Some(Halt::Refused(fault.refusal(at)))),
            },
            Err(FeedError::Wire(error)) => Ok(Some(Halt::Refused(Refusal::of_fault(error)))),
            Err(FeedError::NoMemory) => Err(NoMemory),
        }
    }
}
