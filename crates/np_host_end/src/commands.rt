//! What the page does by itself: its commands, one after another.

ghost use Rattle.std.specs.Prelude.{◌≡◌, ◌<◌, ◌+◌, length, OnOk, OnErr};

use crate::calls::push_call;
use crate::host_core::Core;
use crate::lines::{push_code, push_result};
use np_message::Payload;
use np_model::{Command, Outstanding, PeerState, Phase, Stage};
use np_values::{NoMemory, NpError, Text, Texts};

impl Core {
    ghost use Rattle.np_model.specs.declared.page.Stage.TheVariants.{Begin, Ready, Unanswered};
    ghost use Rattle.np_host_end.specs.Core.{GoesOn, IsActing, RanOutActing};

    /// What the page does where it doesn't wait.
    pub fn act(&mut self) -> Result<(), NoMemory>
        requires acting { IsActing self.old.stage }
        ensures moves { OnOk result (GoesOn self.old self.new) }
        ensures memory { OnErr result (RanOutActing self.old self.new) }
        ensures feed { self.new.feed ≡ self.old.feed }
    {
        match self.stage {
            Stage::Begin => self.greet(),
            Stage::Ready => self.proceed(),
            Stage::Unanswered(call) => self.leave(call),
            Stage::Awaiting(_) | Stage::Ended => Ok(()),
        }
    }

    fn greet(&mut self) -> Result<(), NoMemory>
        requires stage { self.old.stage ≡ Begin }
        ensures moves { OnOk result (GoesOn self.old self.new) }
        ensures memory { OnErr result (RanOutActing self.old self.new) }
        ensures feed { self.new.feed ≡ self.old.feed }
    {
        let page = &self.page;
        let major = page.major;
        let minor = page.minor;
        let hello = Payload::Hello {
            version: 1,
            major,
            minor,
        };
        push_call(self.alloc, &mut self.outgoing, hello)?;
        self.stage = Stage::Awaiting(Outstanding::Hello);
        Ok(())
    }

    /// The line of a command whose reply never comes.
    fn leave(&mut self, call: Outstanding) -> Result<(), NoMemory>
        requires stage { self.old.stage ≡ Unanswered call }
        ensures moves { OnOk result (GoesOn self.old self.new) }
        ensures memory { OnErr result (RanOutActing self.old self.new) }
        ensures feed { self.new.feed ≡ self.old.feed }
    {
        match call {
            Outstanding::New => {
                push_code(
                    self.alloc,
                    &mut self.journal,
                    self.next,
                    NpError::ModuleLoadFailed,
                )?;
            }
            Outstanding::Turn => {
                push_result(self.alloc, &mut self.journal, self.next, "false")?;
            }
            Outstanding::Hello | Outstanding::Destroy(_) | Outstanding::Shutdown => {}
        }
        self.stage = Stage::Ready;
        Ok(())
    }

    fn proceed(&mut self) -> Result<(), NoMemory>
        requires stage { self.old.stage ≡ Ready }
        ensures moves { OnOk result (GoesOn self.old self.new) }
        ensures memory { OnErr result (RanOutActing self.old self.new) }
        ensures feed { self.new.feed ≡ self.old.feed }
    {
        if self.next == self.page.commands.as_slice().len() {
            return self.end();
        }
        self.command()
    }

    fn command(&mut self) -> Result<(), NoMemory>
        requires stage { self.old.stage ≡ Ready }
        requires more { self.old.next < length self.old.page.commands }
        ensures moves { OnOk result (GoesOn self.old self.new) }
        ensures memory { OnErr result (RanOutActing self.old self.new) }
        ensures feed { self.new.feed ≡ self.old.feed }
    {
        match &self.page.commands.as_slice()[self.next] {
            Command::Turn => {
                match self.peer {
                    PeerState::Lost => {
                        push_result(self.alloc, &mut self.journal, self.next + 1, "false")?;
                    }
                    PeerState::Compatible | PeerState::Incompatible => {
                        push_call(self.alloc, &mut self.outgoing, Payload::Turn)?;
                        self.stage = Stage::Awaiting(Outstanding::Turn);
                    }
                }
                self.next += 1;
            }
            Command::Create { mime, mode } => match self.peer {
                PeerState::Lost => {
                    push_code(
                        self.alloc,
                        &mut self.journal,
                        self.next + 1,
                        NpError::ModuleLoadFailed,
                    )?;
                    self.phases.push(Phase::Dead)?;
                    self.next += 1;
                }
                PeerState::Incompatible => {
                    push_code(
                        self.alloc,
                        &mut self.journal,
                        self.next + 1,
                        NpError::IncompatibleVersion,
                    )?;
                    self.phases.push(Phase::Dead)?;
                    self.next += 1;
                }
                PeerState::Compatible => {
                    let instance = (self.phases.len() + 1) as u8;
                    let new = Payload::New {
                        instance,
                        mode: *mode,
                        mime: mime.try_copy(self.alloc)?,
                        attributes: Texts::new(self.alloc),
                    };
                    push_call(self.alloc, &mut self.outgoing, new)?;
                    self.phases.push(Phase::Live)?;
                    self.next += 1;
                    self.stage = Stage::Awaiting(Outstanding::New);
                }
            },
        }
        Ok(())
    }
}
