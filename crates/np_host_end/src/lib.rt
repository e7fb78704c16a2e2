//! The browser end: a page over the bytes of its plug-in, without input or output of its own.
#![tactic(auto)]

mod answer;
mod calls;
mod close;
mod commands;
mod host_core;
mod host_end;
mod lines;
mod meet;
mod run;

pub use host_end::HostEnd;
pub use np_endpoint::Halt as State;
pub use np_model::{Page, Refusal, Rule};
