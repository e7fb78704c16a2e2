//! Why a call of the environment wasn't done.

ghost use Rattle.std.specs.Prelude.{◌≡◌};
ghost use Rattle.np_ports.specs.declared.error.PortError.TheVariants.{NoMemory as of_memory};

use std::alloc::{AllocError, AllocFailed};

/// Why a call of the environment wasn't done. This project's own.
#[derive(Clone, Copy, Debug, PartialEq, Eq)]
pub enum PortError {
    /// The environment refused, and counted it.
    Failed,
    /// The memory for the call was refused.
    NoMemory,
}

impl From<AllocError> for PortError {
    ghost from_gives = { λ _ e. e ≡ of_memory };

    fn from(_: AllocError) -> Self {
        PortError::NoMemory
    }
}

impl<T: Drop> From<AllocFailed<T>> for PortError {
    ghost from_gives = { λ _ e. e ≡ of_memory };

    fn from(_: AllocFailed<T>) -> Self {
        PortError::NoMemory
    }
}
