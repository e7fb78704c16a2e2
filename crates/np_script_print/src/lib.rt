//! Prints whole scripts in their canonical form.
#![tactic(auto)]

mod actions;
mod bodies;
mod commands;
mod declarations;
mod fields;
mod rows;
mod scripts;

pub use scripts::{print_page, print_plugin};
