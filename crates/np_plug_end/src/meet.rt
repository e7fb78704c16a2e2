//! What the plug-in does with a message of its host: whether it may come, and why not.

ghost use Rattle.std.specs.Prelude.{◌≡◌, ◌<◌};
ghost use Rattle.np_model.specs.PluginPlan.{may_come, may_follow};
ghost use Rattle.np_model.specs.Releases.{phase_of};
ghost use Rattle.np_model.specs.PagePlan.{is_live};

use crate::plug_core::Core;
use crate::rules::place;
use np_endpoint::{Fault, unknown_release};
use np_message::{Message, Payload};
use np_model::{Phase, PluginStage, Rule};

impl Core {
    ghost use Rattle.np_plug_end.specs.Core.{control_of, Meets};

    /// Why a message is refused, or `None` where it is served. What may not come is refused first; a
    /// reply answers no call, since the plug-in makes none; and a page has no task to call from. The
    /// releases are looked at last.
    pub fn fault(&self, message: &Message) -> Option<Fault>
        ensures meets { Meets self.now.plugin (control_of self.now) message.now result }
    {
        let body = message.body();
        let depth = u64::from(message.depth().byte());
        let (rule, first, second) = if !self.may_come(body) {
            (
                Rule::WrongKind,
                u64::from(body.kind()),
                u64::from(body.instance()),
            )
        } else if body.is_reply() {
            (Rule::Unmatched, depth, 0)
        } else if message.depth().task {
            (Rule::Place, depth, 0)
        } else {
            return unknown_release(&self.phases, message.releases());
        };
        Some(Fault {
            rule,
            first,
            second,
        })
    }

    // Hello comes first and once, and nothing comes after Shutdown.
    fn may_come(&self, body: &Payload) -> bool
        ensures value { result ≡ may_come (control_of self.now) self.now.stage body.now }
    {
        match (self.stage, body) {
            (PluginStage::Begin, Payload::Hello { .. }) => true,
            (PluginStage::Serving, _) => self.may_follow(body),
            _ => false,
        }
    }

    // What may come after Hello: New is of the next instance, and Destroy of a live one.
    fn may_follow(&self, body: &Payload) -> bool
        ensures value { result ≡ may_follow (control_of self.now) body.now }
    {
        match body {
            Payload::New { instance, .. } => usize::from(*instance) == self.phases.len() + 1,
            Payload::Destroy { instance } => self.lives(*instance),
            Payload::Turn | Payload::Shutdown | Payload::Code(_) => true,
            _ => false,
        }
    }

    fn lives(&self, instance: u8) -> bool
        ensures value { result ≡ is_live (phase_of self.now.phases.items instance) }
    {
        matches!(self.phases.get(place(instance)), Some(Phase::Live))
    }
}
