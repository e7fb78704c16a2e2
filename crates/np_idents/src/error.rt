use np_values::NoMemory;
use std::alloc::AllocError;
use thiserror::Error;

/// Why a text wasn't made into an identifier.
#[derive(Clone, Copy, Debug, PartialEq, Eq, Error)]
pub enum IdentError {
    /// There are more than 256 bytes.
    #[error("TooLong")]
    TooLong,
    #[error("NoMemory")]
    NoMemory,
}

impl From<AllocError> for IdentError {
    ghost use Rattle.std.specs.Prelude.{◌≡◌};
    ghost use Rattle.np_idents.specs.declared.error.IdentError.TheVariants.{NoMemory as of_memory};

    ghost from_gives = { λ _ e. e ≡ of_memory };

    fn from(_: AllocError) -> Self {
        IdentError::NoMemory
    }
}

impl From<NoMemory> for IdentError {
    ghost use Rattle.std.specs.Prelude.{◌≡◌};
    ghost use Rattle.np_idents.specs.declared.error.IdentError.TheVariants.{NoMemory as of_memory};

    ghost from_gives = { λ _ e. e ≡ of_memory };

    fn from(_: NoMemory) -> Self {
        IdentError::NoMemory
    }
}
