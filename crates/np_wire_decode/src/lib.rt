//! Readers of messages, item by item from the left.
#![tactic(auto)]

mod body;
mod items;
mod lists;
mod object_calls;
mod page_calls;
mod plugin_calls;
mod unread;
mod values;

pub use body::decode_body;
pub use unread::{Broken, Unread};
