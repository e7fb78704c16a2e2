//! Why a line may not come next.

use np_values::NoMemory;
use std::alloc::{AllocError, AllocFailed};

/// Why a line may not come next, or that memory ran out.
#[derive(Clone, Copy, Debug, PartialEq, Eq)]
pub enum OrderError {
    /// With it there is more than a script may have.
    Limit,
    /// There isn't, and the line declares what is there already.
    Twice,
    NoMemory,
}

impl From<AllocError> for OrderError {
    ghost use Rattle.std.specs.Prelude.{◌≡◌};
    ghost use Rattle.np_script_order.specs.declared.error.OrderError.TheVariants.{NoMemory as of_memory};

    ghost from_gives = { λ _ e. e ≡ of_memory };

    fn from(_: AllocError) -> Self {
        OrderError::NoMemory
    }
}

impl<T: Drop> From<AllocFailed<T>> for OrderError {
    ghost use Rattle.std.specs.Prelude.{◌≡◌};
    ghost use Rattle.np_script_order.specs.declared.error.OrderError.TheVariants.{NoMemory as of_memory};

    ghost from_gives = { λ _ e. e ≡ of_memory };

    fn from(_: AllocFailed<T>) -> Self {
        OrderError::NoMemory
    }
}

impl From<NoMemory> for OrderError {
    ghost use Rattle.std.specs.Prelude.{◌≡◌};
    ghost use Rattle.np_script_order.specs.declared.error.OrderError.TheVariants.{NoMemory as of_memory};

    ghost from_gives = { λ _ e. e ≡ of_memory };

    fn from(_: NoMemory) -> Self {
        OrderError::NoMemory
    }
}
