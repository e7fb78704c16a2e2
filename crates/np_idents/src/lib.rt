//! Identifiers of NPRuntime: their keys, the operations that name them, and the table that interns them.
#![tactic(auto)]

mod error;
mod idents;
mod key;
mod op;
mod text;

pub use error::IdentError;
pub use idents::{Ident, Idents, same_key_same_place};
pub use key::{IdKey, Keys};
pub use op::Op;
pub use text::IdText;
