//! The laws that join the wire to the runs: what a prefix of one side's bytes has the other do.
#![tactic(auto)]

mod laws;
mod plugin_laws;

pub use laws::{
    begins_law, comes_to_rest_law, ends_law, few_bytes_law, never_refuses_law, one_whole_law,
    rests_unrefused_law, waits_law,
};
pub use plugin_laws::{
    page_few_bytes_law, plugin_begins_law, plugin_comes_to_rest_law, plugin_ends_law,
    plugin_never_refuses_law, plugin_waits_law,
};
