//! What both ends are to do: the plain types of scripts and calls, and the definitions and laws over them and over messages.
#![tactic(auto)]

mod page;
mod plugin;
mod refusal;
mod script;

pub use np_message::{Depth, Message, Payload, WireError, WireKind};
pub use page::{Outstanding, PeerState, Phase, Stage};
pub use plugin::PluginStage;
pub use refusal::{BYTE_LIMIT, Refusal, Rule, TOO_MANY_BYTES};
pub use script::{Command, Commands, Page, Plugin};
