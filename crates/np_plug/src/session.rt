//! A plug-in over a peer and a sink, from its start to the status of the run.

ghost use Rattle.std.specs.Prelude.{◌≡◌, ◌^◌, OnOk, OnErr, IfOk, true, ◌⊎◌};
ghost use Rattle.np_ports.specs.Causes.{Rose};
ghost use Rattle.np_end_stops.specs.Causes.{Adds, AddsPart, SinkCause, MemoryOnly, UnlessMemory, counted_output};
ghost use Rattle.np_end_stops.specs.PeerCauses.{SessionCause, SessionEnded};
ghost use Rattle.np_end_stops.specs.Status.{status_of, IsRunStatus, PIPE_FAILED, PEER_LOST, REFUSED};
ghost use Rattle.np_end_lines.specs.Endings.{ending_line};
ghost use Rattle.np_exchange.specs.Session.{Told, GaveAtMost};
ghost use Rattle.np_exchange.specs.Closing.{EndsWith};
ghost use Rattle.np_plug.specs.Outcomes.{OutcomeOf, CutShort};

use np_end_lines::{FixedEnd, finish, finish_refused};
use np_end_stops::{Ending, Stop};
use np_exchange::talk;
use np_plug_end::{PlugEnd, Plugin};
use np_ports::{Peer, Sink};
use std::alloc::Global;

/// Prints the end line of an exchange, and answers its status.
fn close<O: Sink>(alloc: Global, ending: Ending, notes: &mut O) -> Result<u8, Stop>
    ensures printed { OnOk result (Adds (O.taken notes.old) (O.taken notes.new) (ending_line ending)) }
    ensures status { IfOk result (λ status. status ≡ status_of ending) }
    ensures part { OnErr result (AddsPart (O.taken notes.old) (O.taken notes.new) (ending_line ending)) }
    ensures sink { SinkCause (O.faults notes.old) (O.faults notes.new) result }
    ensures sink_count { O.faults notes.new ≡ counted_output (O.faults notes.old) result }
    ensures memory_kept { UnlessMemory result (O.memory_faults notes.new ≡ O.memory_faults notes.old) }
    ensures memory { MemoryOnly result ((status_of ending ≡ REFUSED) ⊎ Rose (O.memory_faults notes.old) (O.memory_faults notes.new)) }
{
    match ending {
        Ending::Done => finish(notes, FixedEnd::Done),
        Ending::Ended => finish(notes, FixedEnd::PeerLost),
        Ending::Unsent | Ending::Failed => finish(notes, FixedEnd::PipeFailed),
        Ending::Refused(refusal) => finish_refused(alloc, notes, refusal),
    }
}

/// Runs a plug-in over a peer, and answers the status of the run.
pub fn session<P: Peer, O: Sink>(
    alloc: Global,
    plugin: Plugin,
    peer: &mut P,
    notes: &mut O,
) -> Result<u8, Stop>
    ensures cut { OnErr result (Told (CutShort (Rose (P.pipe_faults peer.old) (P.pipe_faults peer.new)) (P.has_ended peer.new ≡ true) plugin) (P.known peer.old) (P.known peer.new) (O.taken notes.old) (O.taken notes.new)) }
    ensures outcome { IfOk result (λ status. EndsWith (OutcomeOf plugin) (P.known peer.old) (P.known peer.new) (O.taken notes.old) (O.taken notes.new) status) }
    ensures read_limit { GaveAtMost (2 ^ 40) (P.known peer.old) (P.known peer.new) }
    ensures status { IfOk result (λ status. IsRunStatus status) }
    ensures peer { SessionCause (P.pipe_faults peer.old) (P.pipe_faults peer.new) result }
    ensures ended { SessionEnded (P.has_ended peer.new) result }
    ensures pipe_only { IfOk result (λ status. (status ≡ PIPE_FAILED) ⊎ (P.pipe_faults peer.new ≡ P.pipe_faults peer.old)) }
    ensures ended_only { IfOk result (λ status. (status ≡ PEER_LOST) ⊎ (P.has_ended peer.new ≡ P.has_ended peer.old)) }
    ensures start_faults { P.start_faults peer.new ≡ P.start_faults peer.old }
    ensures sink { SinkCause (O.faults notes.old) (O.faults notes.new) result }
    ensures sink_count { O.faults notes.new ≡ counted_output (O.faults notes.old) result }
    ensures memory_kept { UnlessMemory result (O.memory_faults notes.new ≡ O.memory_faults notes.old) }
    ensures ended_memory { MemoryOnly result ((P.has_ended peer.new ≡ P.has_ended peer.old) ⊎ Rose (O.memory_faults notes.old) (O.memory_faults notes.new)) }
    ensures pipe_memory { MemoryOnly result ((P.pipe_faults peer.new ≡ P.pipe_faults peer.old) ⊎ Rose (O.memory_faults notes.old) (O.memory_faults notes.new)) }
{
    let mut end = PlugEnd::new(alloc, plugin)?;
    let ending = talk(&mut end, peer, notes)?;
    let status = close(alloc, ending, notes)?;
    Ok(status)
}
