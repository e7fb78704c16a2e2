//! Why bytes weren't read.

ghost use Rattle.std.specs.Prelude.{◌≡◌, length};
ghost use Rattle.np_wire_decode.specs.declared.unread.Unread.TheVariants.{NoMemory as of_memory};

use np_values::NoMemory;
use std::alloc::{AllocError, AllocFailed};

/// Why items weren't read.
#[derive(Clone, Copy, Debug, PartialEq, Eq)]
pub enum Unread {
    /// An item isn't of its form; this many bytes are left from its first one.
    Fault(usize),
    NoMemory,
}

impl From<AllocError> for Unread {
    ghost from_gives = { λ _ e. e ≡ of_memory };

    fn from(_: AllocError) -> Self {
        Unread::NoMemory
    }
}

impl<T: Drop> From<AllocFailed<T>> for Unread {
    ghost from_gives = { λ _ e. e ≡ of_memory };

    fn from(_: AllocFailed<T>) -> Self {
        Unread::NoMemory
    }
}

impl From<NoMemory> for Unread {
    ghost from_gives = { λ _ e. e ≡ of_memory };

    fn from(_: NoMemory) -> Self {
        Unread::NoMemory
    }
}

/// Why the body of a message wasn't read.
#[derive(Clone, Copy, Debug, PartialEq, Eq)]
pub enum Broken {
    /// An item isn't of its form, or passes the body; this many bytes are left from its first one.
    Item(usize),
    /// This many bytes follow the last item.
    Rest(usize),
    NoMemory,
}

/// No item of the form begins these bytes.
pub fn no_item(bytes: &[u8]) -> Unread
    ensures value { result ≡ Unread.Fault (length bytes.now) }
{
    Unread::Fault(bytes.len())
}
