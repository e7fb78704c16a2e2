//! How the adapters answer errors of the platform.

ghost use Rattle.std.specs.Prelude.{◌≡◌, ◌↔◌, Err, IsErr, IsErrOf};
ghost use Rattle.std.specs.IoError.{error_kind};
ghost use Rattle.np_ports.specs.declared.error.PortError.TheVariants.{Failed};
ghost use Rattle.np_ports.specs.Causes.{HasCause, counted, counted_memory};

use crate::PortError;
use std::io::{Error, ErrorKind};

// Counts a failure and answers it.
pub(crate) fn fail<T>(faults: &mut u64) -> Result<T, PortError>
    ensures failed { result ≡ Err Failed }
    ensures cause { HasCause faults.old faults.new result }
    ensures count { faults.new ≡ counted faults.old result }
{
    *faults = faults.saturating_add(1);
    Err(PortError::Failed)
}

// Answers an error of the platform: out of memory where it is that, and else a failure, which is counted.
pub(crate) fn refuse<T>(faults: &mut u64, error: Error) -> Result<T, PortError>
    ensures refused { IsErr result }
    ensures memory { IsErrOf result PortError.NoMemory ↔ error_kind error ≡ ErrorKind.OutOfMemory }
    ensures cause { HasCause faults.old faults.new result }
    ensures count { faults.new ≡ counted faults.old result }
{
    match error.kind() {
        ErrorKind::OutOfMemory => Err(PortError::NoMemory),
        _ => fail(faults),
    }
}

// Answers an error of the platform as `refuse`, of a sink, which also counts its answers of out of memory.
pub(crate) fn refuse_counted<T>(
    faults: &mut u64,
    memory_faults: &mut u64,
    error: Error,
) -> Result<T, PortError>
    ensures refused { IsErr result }
    ensures memory { IsErrOf result PortError.NoMemory ↔ error_kind error ≡ ErrorKind.OutOfMemory }
    ensures cause { HasCause faults.old faults.new result }
    ensures count { faults.new ≡ counted faults.old result }
    ensures memory_count { memory_faults.new ≡ counted_memory memory_faults.old result }
{
    match error.kind() {
        ErrorKind::OutOfMemory => {
            *memory_faults = memory_faults.saturating_add(1);
            Err(PortError::NoMemory)
        }
        _ => fail(faults),
    }
}
