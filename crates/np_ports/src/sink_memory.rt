//! What the sinks in memory have in common.

ghost use Rattle.std.specs.Prelude.{◌≡◌, ◌++◌, OnOk, OnErr, IfOk, length};
ghost use Rattle.np_ports.specs.Causes.{counted_memory};
ghost use Rattle.np_ports.specs.Memory.{NeverFails};

use crate::PortError;

// Keeps the bytes, and answers how many; where memory runs out, it counts that and keeps none.
pub(crate) fn append(
    kept: &mut Vec<u8>,
    memory_faults: &mut u64,
    bytes: &[u8],
) -> Result<usize, PortError>
    ensures all { IfOk result (λ n. n ≡ length bytes.now) }
    ensures ok { OnOk result (kept.new.items ≡ kept.old.items ++ bytes.now) }
    ensures err { OnErr result (kept.new.items ≡ kept.old.items) }
    ensures never { NeverFails result }
    ensures count { memory_faults.new ≡ counted_memory memory_faults.old result }
{
    match kept.extend_from_slice(bytes) {
        Ok(()) => Ok(bytes.len()),
        Err(_) => {
            *memory_faults = memory_faults.saturating_add(1);
            Err(PortError::NoMemory)
        }
    }
}
