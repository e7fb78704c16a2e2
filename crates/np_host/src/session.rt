//! A page over a started peer and a sink, from its first call to the status of the run.

ghost use Rattle.std.specs.Prelude.{◌≡◌, ◌^◌, OnOk, OnErr, IfOk, true, ◌⊎◌};
ghost use Rattle.np_model.specs.Script.{commands_fit};
ghost use Rattle.np_model.specs.Alone.{page_role};
ghost use Rattle.np_ports.specs.Causes.{Rose};
ghost use Rattle.np_end_stops.specs.Causes.{SinkCause, UnlessMemory, counted_output};
ghost use Rattle.np_end_stops.specs.PeerCauses.{SessionCause, SessionEnded};
ghost use Rattle.np_end_stops.specs.Status.{status_of, IsRunStatus, PIPE_FAILED, PEER_LOST};
ghost use Rattle.np_exchange.specs.Session.{Told, GaveAtMost};
ghost use Rattle.np_exchange.specs.Closing.{EndsWith, Closed, ClosedPart};
ghost use Rattle.np_host.specs.Outcomes.{OutcomeOf, CutShort};
ghost use Rattle.np_host.specs.Losing.{Loses, LosesPart};

use np_end_lines::{FixedEnd, finish, finish_refused};
use np_end_stops::{Ending, Stop};
use np_exchange::{print_journal, talk};
use np_host_end::{HostEnd, Page};
use np_model_laws::{journal_law, lost_law};
use np_ports::{Peer, Sink};
use std::alloc::Global;

/// The peer is lost: the page continues alone, and what it writes is printed.
fn lose<O: Sink>(end: &mut HostEnd, out: &mut O) -> Result<(), Stop>
    ensures lost { OnOk result (Loses (O.taken out.old) (O.taken out.new) end.old) }
    ensures cut { OnErr result (LosesPart (O.taken out.old) (O.taken out.new) end.old) }
    ensures sink { SinkCause (O.faults out.old) (O.faults out.new) result }
    ensures sink_count { O.faults out.new ≡ counted_output (O.faults out.old) result }
    ensures memory_kept { UnlessMemory result (O.memory_faults out.new ≡ O.memory_faults out.old) }
{
    lost_law();
    journal_law();
    end.gone();
    end.run()?;
    print_journal(end, out)
}

/// Prints what is left to print after the exchange, and answers the status.
fn close<O: Sink>(alloc: Global, ending: Ending, end: &mut HostEnd, out: &mut O) -> Result<u8, Stop>
    ensures closed { OnOk result (Closed page_role OutcomeOf (O.taken out.old) (O.taken out.new) end.old ending) }
    ensures cut { OnErr result (ClosedPart page_role OutcomeOf (O.taken out.old) (O.taken out.new) end.old ending) }
    ensures status { IfOk result (λ status. status ≡ status_of ending) }
    ensures sink { SinkCause (O.faults out.old) (O.faults out.new) result }
    ensures sink_count { O.faults out.new ≡ counted_output (O.faults out.old) result }
    ensures memory_kept { UnlessMemory result (O.memory_faults out.new ≡ O.memory_faults out.old) }
{
    match ending {
        Ending::Done => finish(out, FixedEnd::Done),
        Ending::Unsent => finish(out, FixedEnd::PipeFailed),
        Ending::Ended => {
            lose(end, out)?;
            finish(out, FixedEnd::PeerLost)
        }
        Ending::Failed => {
            lose(end, out)?;
            finish(out, FixedEnd::PipeFailed)
        }
        Ending::Refused(refusal) => {
            lose(end, out)?;
            finish_refused(alloc, out, refusal)
        }
    }
}

/// Runs a page over a peer that was started, and answers the status of the run.
pub fn session<P: Peer, O: Sink>(
    alloc: Global,
    page: Page,
    peer: &mut P,
    out: &mut O,
) -> Result<u8, Stop>
    requires fits { commands_fit 0 page.commands ≡ true }
    ensures outcome { IfOk result (λ status. EndsWith (OutcomeOf page) (P.known peer.old) (P.known peer.new) (O.taken out.old) (O.taken out.new) status) }
    ensures cut { OnErr result (Told (CutShort (Rose (P.pipe_faults peer.old) (P.pipe_faults peer.new)) (P.has_ended peer.new ≡ true) page) (P.known peer.old) (P.known peer.new) (O.taken out.old) (O.taken out.new)) }
    ensures read_limit { GaveAtMost (2 ^ 40) (P.known peer.old) (P.known peer.new) }
    ensures status { IfOk result (λ status. IsRunStatus status) }
    ensures peer { SessionCause (P.pipe_faults peer.old) (P.pipe_faults peer.new) result }
    ensures ended { SessionEnded (P.has_ended peer.new) result }
    ensures pipe_only { IfOk result (λ status. (status ≡ PIPE_FAILED) ⊎ (P.pipe_faults peer.new ≡ P.pipe_faults peer.old)) }
    ensures ended_only { IfOk result (λ status. (status ≡ PEER_LOST) ⊎ (P.has_ended peer.new ≡ P.has_ended peer.old)) }
    ensures start_faults { P.start_faults peer.new ≡ P.start_faults peer.old }
    ensures sink { SinkCause (O.faults out.old) (O.faults out.new) result }
    ensures sink_count { O.faults out.new ≡ counted_output (O.faults out.old) result }
    ensures memory_kept { UnlessMemory result (O.memory_faults out.new ≡ O.memory_faults out.old) }
{
    let mut end = HostEnd::new(alloc, page)?;
    let ending = talk(&mut end, peer, out)?;
    let status = close(alloc, ending, &mut end, out)?;
    Ok(status)
}
