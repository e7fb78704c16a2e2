//! The lines of a journal, and the journal that they are written to.
#![tactic(auto)]

mod both;
mod journal;
mod line;
mod printed;
mod printing;
mod streamed;

pub use both::{Journals, RunEnd};
pub use journal::Journal;
pub use line::Line;
pub use printed::Printed;
pub use streamed::Streamed;
