//! Lists the messages of a file of wire bytes.
#![tactic(auto)]

mod laws;
mod lines;
mod listing;
mod outcome;
mod reading;

pub use laws::{faults_are_shown, long_files_are_refused, messages_are_shown};
pub use listing::show;
