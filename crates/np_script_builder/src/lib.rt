//! The value of a script, built line by line from lines that are in order.
#![tactic(auto)]

mod bodies;
mod builder;
mod classes;
mod laws;
mod members;
mod state;
mod tops;

pub use builder::Builder;
pub use laws::{
    built_goes_on, built_pages, built_plugins, lines_in_order_are_built, pages_are_built,
    plugins_are_built,
};
pub use np_script_grammar::Fields;
pub use state::{Building, Unfinished};
