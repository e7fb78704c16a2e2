//! Reads page scripts and plug-in scripts, and prints them.
#![tactic(auto)]

mod error;
mod laws;
mod lines;
mod parse;
mod read;
mod reader;
mod script;

pub use error::ParseError;
pub use laws::{
    canonical_pages_are_scripts, canonical_plugins_are_scripts, commands_are_few,
    no_page_is_refused, no_plugin_is_refused, one_canonical_page, one_canonical_plugin, one_page,
    one_plugin, page_scripts_keep_limits, page_scripts_keep_rules, pages_are_decided,
    plugin_scripts_keep_limits, plugin_scripts_keep_rules, plugins_are_decided,
};
pub use np_script_grammar::{
    Action, Body, ClassDef, Classes, Command, Commands, HandlerDef, Handlers, Member, Members,
    Operand, Operands, Page, Plugin, Resource, Resources, ScriptError, ScriptKind, TaskDef, Tasks,
};
pub use np_script_print::{print_page, print_plugin};
pub use parse::{parse_page, parse_plugin};
pub use script::{PageScript, PluginScript};
