//! What the page does with a message of the plug-in.

ghost use Rattle.std.specs.Prelude.{◌≡◌, OnOk, OnErr, IfOk};
ghost use Rattle.np_model.specs.declared.page.Stage.TheVariants.{Awaiting};
ghost use Rattle.np_message.specs.Encoding.{kind_of, depth_byte};
ghost use Rattle.np_message.specs.Kinds.{instance_of};
ghost use Rattle.np_model.specs.declared.refusal.Rule.TheVariants.{WrongKind, Unmatched};
ghost use Rattle.np_host_end.specs.Answers.{answered};
ghost use Rattle.np_model.specs.PagePlan.{meet_plan};
ghost use Rattle.np_host_end.specs.Core.{control_of, Meets, MovesAs, RanOutMeeting};

use crate::answer::{Answer, answer_to, may_answer};
use crate::host_core::Core;
use crate::lines::{push_code, push_result};
use np_endpoint::{Fault, unknown_release};
use np_message::Message;
use np_model::{Outstanding, PeerState, Rule, Stage};
use np_values::{NoMemory, NpError};

// A kind that answers no call of the page.
fn wrong_kind(message: &Message) -> Fault
    ensures value { result ≡ record { rule = WrongKind; first = kind_of message.now.body; second = instance_of message.now.body } }
{
    let body = message.body();
    Fault {
        rule: Rule::WrongKind,
        first: u64::from(body.kind()),
        second: u64::from(body.instance()),
    }
}

// A reply that isn't one to the call that is open.
fn unmatched(message: &Message) -> Fault
    ensures value { result ≡ record { rule = Unmatched; first = depth_byte message.now.depth; second = 1 } }
{
    Fault {
        rule: Rule::Unmatched,
        first: u64::from(message.depth().byte()),
        second: 1,
    }
}

impl Core {
    /// What the page does with a message while a reply is awaited. Its releases are looked at last.
    pub fn meet(&mut self, call: Outstanding, message: &Message) -> Result<Option<Fault>, NoMemory>
        requires stage { self.old.stage ≡ Awaiting call }
        ensures meets { IfOk result (λ fault. Meets self.old self.new message.now fault) }
        ensures memory { OnErr result (RanOutMeeting self.old self.new (meet_plan (control_of self.old) message.now)) }
        ensures feed { self.new.feed ≡ self.old.feed }
    {
        if !may_answer(message.body()) {
            return Ok(Some(wrong_kind(message)));
        }
        if message.depth().byte() != 1 {
            return Ok(Some(unmatched(message)));
        }
        let Some(answer) = answer_to(call, message.body()) else {
            return Ok(Some(unmatched(message)));
        };
        if let Some(fault) = unknown_release(&self.phases, message.releases()) {
            return Ok(Some(fault));
        }
        self.take_answer(answer)?;
        Ok(None)
    }

    /// What an answer to the open call does.
    fn take_answer(&mut self, answer: Answer) -> Result<(), NoMemory>
        ensures moves { OnOk result (MovesAs self.old self.new (answered (control_of self.old) answer)) }
        ensures memory { OnErr result (RanOutMeeting self.old self.new (answered (control_of self.old) answer)) }
        ensures feed { self.new.feed ≡ self.old.feed }
    {
        match answer {
            Answer::Compatible => {}
            Answer::Incompatible => self.peer = PeerState::Incompatible,
            Answer::Created(error) => {
                push_code(self.alloc, &mut self.journal, self.next, error)?;
                if error != NpError::NoError {
                    let last = self.phases.len();
                    self.bury(last);
                }
            }
            Answer::Destroyed(instance) => self.bury(instance as usize),
            Answer::Turned => {
                push_result(self.alloc, &mut self.journal, self.next, "true void")?;
            }
            Answer::ShutDown => {
                self.stage = Stage::Ended;
                return Ok(());
            }
        }
        self.stage = Stage::Ready;
        Ok(())
    }
}
