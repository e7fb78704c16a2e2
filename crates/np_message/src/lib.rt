//! Messages between the two sides: their types, and the format of their bytes as definitions.
#![tactic(auto)]

mod depth;
mod message;
mod payload;
mod wire;

pub use depth::Depth;
pub use message::Message;
pub use payload::Payload;
pub use wire::{WireError, WireKind};
