//! The script languages: the plain types of what scripts say, and their grammar as definitions.
#![tactic(auto)]

mod action;
mod class;
mod command;
mod fields;
mod line;
mod page;
mod place;
mod plugin;
mod refusal;

pub use action::{Action, Body, Operand, Operands};
pub use class::{ClassDef, Classes, Member, Members};
pub use command::{Command, Commands, NP_EMBED, NP_FULL};
pub use fields::Fields;
pub use line::{Field, Item};
pub use page::{Page, Resource, Resources};
pub use place::Place;
pub use plugin::{HandlerDef, Handlers, Plugin, TaskDef, Tasks};
pub use refusal::{ScriptError, ScriptKind};
