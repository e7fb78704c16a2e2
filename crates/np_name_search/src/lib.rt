//! A search among entries in rising order of names.
#![tactic(auto)]

mod named;
mod search;

pub use named::{Named, NumberedName, number_of};
pub use search::count_before;
