//! References to the other side's objects: what is given back of them.
#![tactic(auto)]

mod release;

pub use release::{Release, Releases};
