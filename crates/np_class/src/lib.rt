//! The class table: what a class has for an operation on one of its objects.
#![tactic(auto)]

mod found;

pub use found::{Found, entry};
