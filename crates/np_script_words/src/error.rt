use np_values::NoMemory;
use std::alloc::{AllocError, AllocFailed};

/// Why a word says no such thing, or that memory ran out.
#[derive(Clone, Copy, Debug, PartialEq, Eq)]
pub enum FieldError {
    /// It isn't of the form that is asked for.
    Form,
    /// It is, and passes a limit.
    Limit,
    NoMemory,
}

impl From<AllocError> for FieldError {
    ghost use Rattle.std.specs.Prelude.{◌≡◌};
    ghost use Rattle.np_script_words.specs.declared.error.FieldError.TheVariants.{NoMemory as of_memory};

    ghost from_gives = { λ _ e. e ≡ of_memory };

    fn from(_: AllocError) -> Self {
        FieldError::NoMemory
    }
}

impl<T: Drop> From<AllocFailed<T>> for FieldError {
    ghost use Rattle.std.specs.Prelude.{◌≡◌};
    ghost use Rattle.np_script_words.specs.declared.error.FieldError.TheVariants.{NoMemory as of_memory};

    ghost from_gives = { λ _ e. e ≡ of_memory };

    fn from(_: AllocFailed<T>) -> Self {
        FieldError::NoMemory
    }
}

impl From<NoMemory> for FieldError {
    ghost use Rattle.std.specs.Prelude.{◌≡◌};
    ghost use Rattle.np_script_words.specs.declared.error.FieldError.TheVariants.{NoMemory as of_memory};

    ghost from_gives = { λ _ e. e ≡ of_memory };

    fn from(_: NoMemory) -> Self {
        FieldError::NoMemory
    }
}
