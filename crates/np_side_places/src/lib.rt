//! The places of one side that are no properties of objects: registers, slots, frames, and the values in flight.
#![tactic(auto)]

mod lists;
mod places;

pub use places::Places;
