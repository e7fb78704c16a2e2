//! One turn of the exchange between an end and its environment.

ghost use Rattle.std.specs.Prelude.{◌≡◌, ◌+◌, ◌-◌, ◌≤◌, ◌<◌, ◌^◌, length, OnOk, OnErr, IfOk};
ghost use Rattle.np_endpoint.specs.End.{total_of};
ghost use Rattle.np_end_stops.specs.Causes.{SinkCause, UnlessMemory, counted_output};
ghost use Rattle.np_end_stops.specs.PeerCauses.{ReadCut, GoesOnOnly, IsMemoryOnly, EndingCause, EndedOnly};
ghost use Rattle.np_exchange.specs.Session.{GaveAtMost};
ghost use Rattle.np_exchange.specs.Live.{Ran, RanCut, Turned, TurnCut, HeardOn, RefusesUncalled, counted_turn, ended_turn};

use crate::flow::{listen, print_journal, send_messages};
use np_end_stops::{Ending, Heard, Stop};
use np_endpoint::{Endpoint, Halt};
use np_model::{BYTE_LIMIT, TOO_MANY_BYTES};
use np_ports::{Peer, Sink};

/// Runs the end until it waits or ends, and prints what it wrote.
pub fn run_and_print<E: Endpoint, O: Sink>(end: &mut E, out: &mut O) -> Result<Halt, Stop>
    ensures ran { IfOk result (λ halt. Ran E.role_of (O.taken out.old) (O.taken out.new) (E.seen end.old) (E.seen end.new) halt) }
    ensures cut { OnErr result (RanCut E.role_of (O.taken out.old) (O.taken out.new) (E.seen end.old)) }
    ensures total { OnOk result (total_of (E.seen end.new) ≡ total_of (E.seen end.old)) }
    ensures cause { SinkCause (O.faults out.old) (O.faults out.new) result }
    ensures count { O.faults out.new ≡ counted_output (O.faults out.old) result }
    ensures memory_kept { UnlessMemory result (O.memory_faults out.new ≡ O.memory_faults out.old) }
{
    let halt = end.run()?;
    print_journal(end, out)?;
    Ok(halt)
}

/// Lets the end run, writes out what it has, and gives it what the peer sends; reports how the exchange
/// ends, if it does. `total` counts the bytes that the end was given.
pub fn turn<E: Endpoint, P: Peer, O: Sink>(
    end: &mut E,
    peer: &mut P,
    out: &mut O,
    buf: &mut [u8],
    total: &mut u64,
) -> Result<Option<Ending>, Stop>
    requires some { 0 < length buf.old }
    requires total { total_of (E.seen end.old) ≡ total.old }
    requires limit { total.old ≤ 2 ^ 40 }
    ensures cut { OnErr result (TurnCut E.role_of (P.known peer.old) (P.known peer.new) (O.taken out.old) (O.taken out.new) (E.seen end.old)) }
    ensures turned { IfOk result (λ ending. Turned E.role_of (P.known peer.old) (P.known peer.new) (O.taken out.old) (O.taken out.new) (E.seen end.old) (E.seen end.new) ending) }
    ensures gave { OnOk result (GaveAtMost (total.new - total.old) (P.known peer.old) (P.known peer.new)) }
    ensures cut_limit { OnErr result (GaveAtMost (2 ^ 40 - total.old) (P.known peer.old) (P.known peer.new)) }
    ensures uncalled { IfOk result (λ ending. RefusesUncalled (P.known peer.old) (P.known peer.new) ending) }
    ensures total { OnOk result (total_of (E.seen end.new) ≡ total.new) }
    ensures limit { OnOk result (total.new ≤ 2 ^ 40) }
    ensures more { IfOk result (λ ending. GoesOnOnly ending (total.old < total.new)) }
    ensures peer { EndingCause (P.pipe_faults peer.old) (P.pipe_faults peer.new) result }
    ensures pipe_count { P.pipe_faults peer.new ≡ counted_turn (P.pipe_faults peer.old) result }
    ensures ended { EndedOnly (P.has_ended peer.new) result }
    ensures ended_exact { P.has_ended peer.new ≡ ended_turn (P.has_ended peer.old) result }
    ensures start_faults { P.start_faults peer.new ≡ P.start_faults peer.old }
    ensures sink { SinkCause (O.faults out.old) (O.faults out.new) result }
    ensures sink_count { O.faults out.new ≡ counted_output (O.faults out.old) result }
    ensures memory_kept { UnlessMemory result (O.memory_faults out.new ≡ O.memory_faults out.old) }
{
    let halt = run_and_print(end, out)?;
    if let Halt::Refused(refusal) = halt {
        return Ok(Some(Ending::Refused(refusal)));
    }
    let sent = send_messages(end, peer)?;
    if let Halt::Finished = halt {
        return Ok(Some(if sent { Ending::Done } else { Ending::Unsent }));
    }
    if !sent {
        return Ok(Some(Ending::Failed));
    }
    if *total == BYTE_LIMIT {
        return Ok(Some(Ending::Refused(TOO_MANY_BYTES)));
    }
    let ending = hear(end, peer, buf, total)?;
    Ok(ending)
}

/// Gives the end what the peer sends next.
fn hear<E: Endpoint, P: Peer>(
    end: &mut E,
    peer: &mut P,
    buf: &mut [u8],
    total: &mut u64,
) -> Result<Option<Ending>, Stop>
    requires some { 0 < length buf.old }
    requires total { total_of (E.seen end.old) ≡ total.old }
    requires limit { total.old < 2 ^ 40 }
    ensures cut { OnErr result (ReadCut (P.known peer.old) (P.known peer.new)) }
    ensures cut_limit { OnErr result (GaveAtMost (2 ^ 40 - total.old) (P.known peer.old) (P.known peer.new)) }
    ensures heard { IfOk result (λ ending. HeardOn E.role_of (P.known peer.old) (P.known peer.new) (E.seen end.old) (E.seen end.new) ending) }
    ensures total { OnOk result (total_of (E.seen end.new) ≡ total.new) }
    ensures limit { OnOk result (total.new ≤ 2 ^ 40) }
    ensures more { IfOk result (λ ending. GoesOnOnly ending (total.old < total.new)) }
    ensures peer { EndingCause (P.pipe_faults peer.old) (P.pipe_faults peer.new) result }
    ensures pipe_count { P.pipe_faults peer.new ≡ counted_turn (P.pipe_faults peer.old) result }
    ensures ended { EndedOnly (P.has_ended peer.new) result }
    ensures ended_exact { P.has_ended peer.new ≡ ended_turn (P.has_ended peer.old) result }
    ensures start_faults { P.start_faults peer.new ≡ P.start_faults peer.old }
    ensures memory { IsMemoryOnly result }
{
    let left = BYTE_LIMIT - *total;
    let room = if left < buf.len() as u64 {
        left as usize
    } else {
        buf.len()
    };
    match listen(end, peer, &mut buf[..room])? {
        Heard::Bytes(n) => {
            *total += n as u64;
            Ok(None)
        }
        Heard::Ended => Ok(Some(Ending::Ended)),
        Heard::Failed => Ok(Some(Ending::Failed)),
    }
}
