//! Values that scripts, messages and journals speak of: lists, texts, names and the codes of npapi.h.
#![tactic(auto)]

mod error;
mod handler;
mod lists;
mod memory;
mod name;
mod printing;
mod range;
mod reason;
mod seq;
mod stream_mode;
mod text;
mod try_copy;
mod value;

pub use error::NpError;
pub use handler::Handler;
pub use lists::{Bytes, NameList, Ranges, Texts, Values};
pub use memory::NoMemory;
pub use name::{Name, Side};
pub use printing::{push_int, push_name, push_number, push_quoted};
pub use range::Range;
pub use reason::NpReason;
pub use seq::Seq;
pub use stream_mode::StreamMode;
pub use text::{Text, TextError};
pub use try_copy::TryCopy;
pub use value::Value;
