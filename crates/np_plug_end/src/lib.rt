//! The plug-in end: a plug-in over the bytes of its host, without input or output of its own.
#![tactic(auto)]

mod lines;
mod meet;
mod plug_core;
mod plug_end;
mod rules;
mod run;
mod serve;

pub use np_endpoint::Halt as PlugState;
pub use np_model::{Plugin, Refusal, Rule};
pub use plug_end::PlugEnd;
