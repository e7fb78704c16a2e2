//! The instances of a plug-in, each with its phase.
#![tactic(auto)]

mod instances;
mod laws;
mod phase;

pub use instances::Instances;
pub use laws::one_phase_changes;
pub use phase::Phase;
