//! The end line of a run of a program.
#![tactic(auto)]

mod fixed_end;
mod lines;
mod script_lines;

pub use fixed_end::FixedEnd;
pub use lines::{finish, finish_refused};
pub use script_lines::{finish_script, finish_unbuilt};
