ghost use Rattle.std.specs.Prelude.{◌≡◌, ◌≤◌, ◌<◌, length};
ghost use Rattle.np_ports.specs.Causes.{HasCause, counted};
ghost use Rattle.np_ports.specs.Transfer.{ReadsScript, NotesOnly};

use crate::{Files, PortError};
use std::alloc::Global;

/// One byte more than a script may have: as many bytes as are ever read of one.
pub const SCRIPT_LIMIT: usize = 1_048_577;

/// Reads a file to its end, or to the limit of scripts and one byte more.
pub fn read_script<F: Files>(alloc: Global, files: &mut F, name: &str) -> Result<Vec<u8>, PortError>
    ensures contents { ReadsScript (F.contents files.old) (F.contents files.new) result name.now }
    ensures failed_calls { NotesOnly (F.failed_calls files.old) (F.failed_calls files.new) result name.now }
    ensures cause { HasCause (F.faults files.old) (F.faults files.new) result }
    ensures count { F.faults files.new ≡ counted (F.faults files.old) result }
{
    let mut bytes = Vec::new(alloc);
    let mut buf = [0u8; 4096];
    while bytes.len() < SCRIPT_LIMIT {
        let room = (SCRIPT_LIMIT - bytes.len()).min(4096);
        let n = match files.read(name, bytes.len() as u64, &mut buf[..room]) {
            Ok(n) => n,
            Err(error) => return Err(error),
        };
        if n == 0 {
            return Ok(bytes);
        }
        match bytes.extend_from_slice(&buf[..n]) {
            Ok(()) => {}
            Err(_) => return Err(PortError::NoMemory),
        }
    }
    Ok(bytes)
}
