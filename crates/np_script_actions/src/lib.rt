//! The actions and commands of scripts, row by row: from the fields of a line, and back.
//!
//! A row whose word fits returns at once: the value of an `if` within an `if` would be moved once for each of them.
#![tactic(auto)]

mod actions;
mod commands;
mod laws;
mod own_actions;
mod page_commands;
mod plain_actions;

pub use actions::action;
pub use commands::command;
pub use laws::{
    actions_are_read, actions_were_lines, commands_are_read, commands_were_lines,
    lines_say_actions, lines_say_commands,
};
pub use np_script_grammar::Fields;
