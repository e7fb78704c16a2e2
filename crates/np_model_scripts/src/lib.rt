//! Reads the scripts that the programs serve, as pages and plug-ins of the model.
#![tactic(auto)]

mod bodies;
mod declarations;
mod greater;
mod laws;
mod levels;
mod page;
mod plugin;
mod serve;

pub use laws::{
    served_pages_are_well_formed, unserved_pages_are_above, unserved_plugins_are_above,
};
pub use levels::{page_level, plugin_level};
pub use np_model::{Page, Plugin};
pub use np_script_grammar::{ScriptError, ScriptKind};
pub use page::served_page;
pub use plugin::served_plugin;
pub use serve::{Unserved, serve_page, serve_plugin};
