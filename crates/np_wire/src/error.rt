//! Why a feed gives no message.

ghost use Rattle.std.specs.Prelude.{◌≡◌};
ghost use Rattle.np_wire.specs.declared.error.FeedError.TheVariants.{NoMemory as of_memory};

use np_message::WireError;
use np_values::NoMemory;
use std::alloc::{AllocError, AllocFailed};

/// Why `next` gave no message.
#[derive(Clone, Copy, Debug, PartialEq, Eq)]
pub enum FeedError {
    /// The bytes break the format. The feed stays at them and answers the same again.
    Wire(WireError),
    /// Out of memory. The feed is as it was, and the call may be made again.
    NoMemory,
}

impl From<AllocError> for FeedError {
    ghost from_gives = { λ _ e. e ≡ of_memory };

    fn from(_: AllocError) -> Self {
        FeedError::NoMemory
    }
}

impl<T: Drop> From<AllocFailed<T>> for FeedError {
    ghost from_gives = { λ _ e. e ≡ of_memory };

    fn from(_: AllocFailed<T>) -> Self {
        FeedError::NoMemory
    }
}

impl From<NoMemory> for FeedError {
    ghost from_gives = { λ _ e. e ≡ of_memory };

    fn from(_: NoMemory) -> Self {
        FeedError::NoMemory
    }
}
