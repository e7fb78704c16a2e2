//! The end of the page: its closing calls, and the loss of the plug-in.

ghost use Rattle.std.specs.Prelude.{◌≡◌, ◌≤◌, ◌<◌, ◌+◌, ◌-◌, length, OnOk, OnErr, position, slice_set, map};
ghost use Rattle.np_model.specs.PagePlan.{is_live as lives, with_phase, peer_lost, unanswered as unanswered_stage};
ghost use Rattle.np_model.specs.declared.page.Phase.TheVariants.{Dead};
ghost use Rattle.np_host_end.specs.Core.{control_of, GoesOn, SameBut, RanOutActing};

use crate::calls::push_call;
use crate::host_core::Core;
use np_message::Payload;
use np_model::{Outstanding, PeerState, Phase, Stage};
use np_values::NoMemory;

fn is_live(phase: Phase) -> bool
    ensures value { result ≡ lives phase }
{
    match phase {
        Phase::Live => true,
        Phase::Absent | Phase::Destroying | Phase::Dead => false,
    }
}

fn first_live(phases: &[Phase]) -> Option<usize>
    ensures value { result ≡ position lives phases.now }
{
    phases.iter().position(|phase| is_live(*phase))
}

fn bury_all(phases: &mut [Phase])
    ensures value { phases.new ≡ map (λ phase. Dead) phases.old }
{
    phases.fill(Phase::Dead);
}

fn unanswered(stage: Stage) -> Stage
    ensures value { result ≡ unanswered_stage stage }
{
    match stage {
        Stage::Awaiting(call) => Stage::Unanswered(call),
        Stage::Begin => Stage::Ready,
        Stage::Ready | Stage::Unanswered(_) | Stage::Ended => stage,
    }
}

impl Core {
    ghost use Rattle.np_model.specs.declared.page.Stage.TheVariants.{Ready};

    /// The page has no further command.
    pub fn end(&mut self) -> Result<(), NoMemory>
        requires stage { self.old.stage ≡ Ready }
        requires done { self.old.next ≡ length self.old.page.commands }
        ensures moves { OnOk result (GoesOn self.old self.new) }
        ensures memory { OnErr result (RanOutActing self.old self.new) }
        ensures feed { self.new.feed ≡ self.old.feed }
    {
        if let PeerState::Lost = self.peer {
            self.stage = Stage::Ended;
            return Ok(());
        }
        match first_live(&self.phases) {
            Some(place) => {
                let instance = (place + 1) as u8;
                push_call(
                    self.alloc,
                    &mut self.outgoing,
                    Payload::Destroy { instance },
                )?;
                self.phases[place] = Phase::Destroying;
                self.stage = Stage::Awaiting(Outstanding::Destroy(instance));
            }
            None => {
                push_call(self.alloc, &mut self.outgoing, Payload::Shutdown)?;
                self.stage = Stage::Awaiting(Outstanding::Shutdown);
            }
        }
        Ok(())
    }

    /// The instance becomes dead.
    pub fn bury(&mut self, instance: usize)
        ensures control { control_of self.new ≡ with_phase (control_of self.old) instance Dead }
        ensures same { SameBut self.old self.new }
    {
        let place = instance.saturating_sub(1);
        if place < self.phases.len() {
            self.phases[place] = Phase::Dead;
        }
    }

    /// The plug-in is lost.
    pub fn lose(&mut self)
        ensures control { control_of self.new ≡ peer_lost (control_of self.old) }
        ensures same { SameBut self.old self.new }
    {
        bury_all(&mut self.phases);
        self.peer = PeerState::Lost;
        self.stage = unanswered(self.stage);
    }
}
