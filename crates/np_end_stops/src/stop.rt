//! Why a run stops at once.

use np_ports::PortError;
use np_values::NoMemory;
use std::alloc::AllocError;

/// A fault that ends a run at once, without an end line. (This project's own.)
#[derive(Clone, Copy, Debug, PartialEq, Eq)]
pub enum Stop {
    /// The sink of the journal failed.
    OutputFailed,
    NoMemory,
}

impl From<NoMemory> for Stop {
    ghost use Rattle.std.specs.Prelude.{◌≡◌};
    ghost use Rattle.np_end_stops.specs.declared.stop.Stop.TheVariants.{NoMemory as of_memory};

    ghost from_gives = { λ _ s. s ≡ of_memory };

    fn from(_: NoMemory) -> Self {
        Stop::NoMemory
    }
}

impl From<AllocError> for Stop {
    ghost use Rattle.std.specs.Prelude.{◌≡◌};
    ghost use Rattle.np_end_stops.specs.declared.stop.Stop.TheVariants.{NoMemory as of_memory};

    ghost from_gives = { λ _ s. s ≡ of_memory };

    fn from(_: AllocError) -> Self {
        Stop::NoMemory
    }
}

impl From<PortError> for Stop {
    ghost use Rattle.std.specs.Prelude.{◌≡◌};
    ghost use Rattle.np_end_stops.specs.Causes.{stop_of};

    ghost from_gives = { λ e s. s ≡ stop_of e };

    fn from(error: PortError) -> Self {
        match error {
            PortError::Failed => Stop::OutputFailed,
            PortError::NoMemory => Stop::NoMemory,
        }
    }
}
