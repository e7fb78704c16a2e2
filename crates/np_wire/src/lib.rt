//! Messages as bytes: the encoder, and a feed that decodes them in whatever chunks they come.
#![tactic(auto)]

mod error;
mod feed;
mod laws;

pub use error::FeedError;
pub use feed::Feed;
pub use laws::feeds_give_what_was_pushed;
pub use np_message::{Depth, Message, Payload, WireError, WireKind};
pub use np_wire_encode::encode;
pub use np_wire_laws::{
    encoded_is_read_again, encodings_are_of_messages, fault_is_first, length_is_refused,
    messages_fit, no_encoding_begins_another, partial_is_cut_short, read_is_encoded,
};
