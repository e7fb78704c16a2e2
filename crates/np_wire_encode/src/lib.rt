//! Messages as bytes: the encoder.
#![tactic(auto)]

mod items;
mod lengths;
mod messages;
mod payloads;

pub use messages::encode;
