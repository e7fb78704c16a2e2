//! The calls of a side that weren't answered yet, and where a call of the other side stands among them.
#![tactic(auto)]

mod calls;
mod place;

pub use calls::Calls;
pub use place::Place;
