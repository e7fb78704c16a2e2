//! Tests of the crates of one side, with ample memory.
#![tactic(auto)]

#[cfg(test)]
mod places;
#[cfg(test)]
mod plans;
