//! What holds of the lines of all scripts, whatever they say.
#![tactic(auto)]

mod laws;

pub use laws::{
    canonical_lines_say_pages, canonical_lines_say_plugins, canonical_pages_are_in_order,
    canonical_plugins_are_in_order, lines_can_be_completed, pages_keep_limits, plugins_keep_limits,
    prefixes_are_in_order,
};
