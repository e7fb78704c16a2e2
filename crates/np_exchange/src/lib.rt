//! The exchange of an end with its environment: its messages and its journal are written out, and the bytes
//! of its peer are carried to it.
#![tactic(auto)]

mod exchange;
mod flow;
mod turn;

pub use exchange::talk;
pub use flow::print_journal;
