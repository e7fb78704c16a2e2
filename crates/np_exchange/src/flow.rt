//! What an end has for its environment is written out, and bytes of the peer are carried to it.

ghost use Rattle.std.specs.Prelude.{◌≡◌, ◌++◌, ◌+◌, ◌≤◌, ◌<◌, ◌^◌, [], List, ℕ, length, OnOk, OnErr, IfOk};
ghost use Rattle.np_ports.specs.Causes.{HasCause};
ghost use Rattle.np_endpoint.specs.End.{total_of};
ghost use Rattle.np_end_stops.specs.Causes.{SinkCause, UnlessMemory, counted_output, Adds, AddsPart};
ghost use Rattle.np_end_stops.specs.PeerCauses.{TookPart, ReadCut, PeerCause, ReadCause, EndedBy, AtMost};
ghost use Rattle.np_exchange.specs.Session.{GaveAtMost};
ghost use Rattle.np_exchange.specs.Flow.{Printed, Sent, Hears, counted_sent, counted_read, ended_read};

use np_end_stops::{Heard, Stop};
use np_endpoint::Endpoint;
use np_ports::{Peer, PortError, Sink, print_all, send_all};
use np_values::NoMemory;

/// Prints the end's journal, and cuts it off.
pub fn print_journal<E: Endpoint, O: Sink>(end: &mut E, out: &mut O) -> Result<(), Stop>
    ensures printed { OnOk result (Printed E.role_of (E.seen end.old) (E.seen end.new)) }
    ensures taken { OnOk result (Adds (O.taken out.old) (O.taken out.new) (E.seen end.old).journal) }
    ensures part { OnErr result (AddsPart (O.taken out.old) (O.taken out.new) (E.seen end.old).journal) }
    ensures cause { SinkCause (O.faults out.old) (O.faults out.new) result }
    ensures count { O.faults out.new ≡ counted_output (O.faults out.old) result }
    ensures memory_kept { UnlessMemory result (O.memory_faults out.new ≡ O.memory_faults out.old) }
{
    print_all(out, end.journal())?;
    let lines = end.journal().len();
    end.printed(lines);
    Ok(())
}

/// Sends the end's messages, and cuts them off; false where the peer failed.
pub fn send_messages<E: Endpoint, P: Peer>(end: &mut E, peer: &mut P) -> Result<bool, NoMemory>
    ensures sent { IfOk result (λ whole. Sent E.role_of (P.known peer.old) (P.known peer.new) (E.seen end.old) (E.seen end.new) whole) }
    ensures total { OnOk result (total_of (E.seen end.new) ≡ total_of (E.seen end.old)) }
    ensures part { OnErr result (TookPart (P.known peer.old) (P.known peer.new) (E.seen end.old).outgoing) }
    ensures cause { PeerCause (P.pipe_faults peer.old) (P.pipe_faults peer.new) result }
    ensures count { P.pipe_faults peer.new ≡ counted_sent (P.pipe_faults peer.old) result }
    ensures start_faults { P.start_faults peer.new ≡ P.start_faults peer.old }
    ensures ended { P.has_ended peer.new ≡ P.has_ended peer.old }
{
    match send_all(peer, end.outgoing()) {
        Ok(()) => {
            let bytes = end.outgoing().len();
            end.sent(bytes);
            Ok(true)
        }
        Err(PortError::Failed) => Ok(false),
        Err(PortError::NoMemory) => Err(NoMemory),
    }
}

/// Reads bytes of the peer to the front of `buf`, and gives them to the end.
pub fn listen<E: Endpoint, P: Peer>(
    end: &mut E,
    peer: &mut P,
    buf: &mut [u8],
) -> Result<Heard, NoMemory>
    requires some { 0 < length buf.old }
    requires room { total_of (E.seen end.old) + length buf.old ≤ 2 ^ 40 }
    ensures bound { IfOk result (λ heard. AtMost heard (length buf.old)) }
    ensures heard { IfOk result (λ heard. Hears E.role_of (P.known peer.old) (P.known peer.new) (E.seen end.old) (E.seen end.new) heard) }
    ensures cut { OnErr result (ReadCut (P.known peer.old) (P.known peer.new)) }
    ensures cut_limit { OnErr result (GaveAtMost (length buf.old) (P.known peer.old) (P.known peer.new)) }
    ensures cause { ReadCause (P.pipe_faults peer.old) (P.pipe_faults peer.new) result }
    ensures count { P.pipe_faults peer.new ≡ counted_read (P.pipe_faults peer.old) result }
    ensures ended { EndedBy (P.has_ended peer.new) result }
    ensures ended_exact { P.has_ended peer.new ≡ ended_read (P.has_ended peer.old) result }
    ensures start_faults { P.start_faults peer.new ≡ P.start_faults peer.old }
{
    match peer.read(buf) {
        Ok(0) => Ok(Heard::Ended),
        Ok(n) => {
            end.take(&buf[..n])?;
            Ok(Heard::Bytes(n))
        }
        Err(PortError::Failed) => Ok(Heard::Failed),
        Err(PortError::NoMemory) => Err(NoMemory),
    }
}
