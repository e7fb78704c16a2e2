//! The laws of runs: one side alone and the machine of both sides.
#![tactic(auto)]

mod laws;

pub use laws::{
    alone_law, calls_law, cut_law, endpoint_law, few_calls_law, honest_law, journal_law, lost_law,
    more_messages_law, no_attributes_law, one_rest_law, paced_law, plugin_alone_law,
    plugin_cut_law, plugin_journal_law, plugin_more_messages_law, plugin_one_rest_law, replies_law,
    rounds_law, serves_law,
};
