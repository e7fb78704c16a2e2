//! What holds of the bytes of all messages.
#![tactic(auto)]

mod laws;

pub use laws::{
    encoded_is_read_again, encodings_are_of_messages, fault_is_first, items_are_read_again,
    length_is_refused, messages_fit, no_encoding_begins_another, partial_is_cut_short,
    read_bodies_are_messages, read_is_encoded,
};
