//! The machine of two sides: what a side is, the steps that change it, whole runs, and the laws of runs for any plans.
#![tactic(auto)]

mod draft;
mod frame;
mod instance;
mod laws;
mod object;
mod place;
mod refusal;
mod step;

pub use draft::{Draft, Sending};
pub use frame::{BodyId, Caller, Continuation, Entry, Frame, Progress};
pub use instance::Instance;
pub use laws::{
    alone_law, cut_law, delivered_law, endpoint_law, examined_law, honest_names_law, journal_law,
    more_messages_law, names_law, one_rest_law, plugin_alone_law, plugin_cut_law, releases_law,
    remote_law, rounds_law, sound_law, turns_law,
};
pub use object::{Object, Properties, Property};
pub use place::Place;
pub use refusal::{Refusal, Rule};
pub use step::{PutFile, Step, Steps};
