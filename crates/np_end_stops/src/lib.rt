//! How the exchange with a peer ends, why a run of a program stops at once, and the statuses of both programs.
#![tactic(auto)]

mod ending;
pub mod exit_status;
mod heard;
mod stop;

pub use ending::Ending;
pub use heard::Heard;
pub use stop::Stop;
