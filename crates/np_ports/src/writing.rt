ghost use Rattle.std.specs.Prelude.{◌≡◌, ◌≤◌, ◌<◌, length};
ghost use Rattle.np_ports.specs.Causes.{HasCause, counted, counted_memory};
ghost use Rattle.np_ports.specs.Transfer.{Prints, Sends};

use crate::{Peer, PortError, Sink};

/// Prints all of the bytes. After an error a part of them was printed.
pub fn print_all<O: Sink>(out: &mut O, bytes: &[u8]) -> Result<(), PortError>
    ensures taken { Prints (O.taken out.old) (O.taken out.new) result bytes.now }
    ensures cause { HasCause (O.faults out.old) (O.faults out.new) result }
    ensures count { O.faults out.new ≡ counted (O.faults out.old) result }
    ensures memory_count { O.memory_faults out.new ≡ counted_memory (O.memory_faults out.old) result }
{
    let mut rest = bytes;
    while !rest.is_empty() {
        let n = out.write(rest)?;
        rest = &rest[n..];
    }
    Ok(())
}

/// Sends all of the bytes to the other program. After an error it took a part of them.
pub fn send_all<P: Peer>(peer: &mut P, bytes: &[u8]) -> Result<(), PortError>
    ensures known { Sends (P.known peer.old) (P.known peer.new) result bytes.now }
    ensures cause { HasCause (P.pipe_faults peer.old) (P.pipe_faults peer.new) result }
    ensures count { P.pipe_faults peer.new ≡ counted (P.pipe_faults peer.old) result }
    ensures start_faults { P.start_faults peer.new ≡ P.start_faults peer.old }
    ensures ended { P.has_ended peer.new ≡ P.has_ended peer.old }
{
    let mut rest = bytes;
    while !rest.is_empty() {
        let n = peer.write(rest)?;
        rest = &rest[n..];
    }
    Ok(())
}
