//! The exchange of an end with its peer, turn by turn.

ghost use Rattle.std.specs.Prelude.{◌≡◌, ◌≤◌, ◌^◌, OnOk, OnErr, IfOk, ◌⊎◌};
ghost use Rattle.np_endpoint.specs.End.{total_of};
ghost use Rattle.np_end_stops.specs.Causes.{SinkCause, UnlessMemory, counted_output};
ghost use Rattle.np_end_stops.specs.PeerCauses.{TalkCause, TalkEnded};
ghost use Rattle.np_exchange.specs.Session.{GaveAtMost};
ghost use Rattle.np_exchange.specs.Live.{Talked, TurnCut, counted_talk, ended_talk};
ghost use Rattle.np_end_stops.specs.Status.{status_of, PIPE_FAILED, PEER_LOST};

use crate::turn::turn;
use np_end_stops::{Ending, Stop};
use np_endpoint::Endpoint;
use np_ports::{Peer, Sink};

/// Exchanges messages until the end's side has ended, or the peer is lost or refused. The end has got no
/// bytes yet.
pub fn talk<E: Endpoint, P: Peer, O: Sink>(
    end: &mut E,
    peer: &mut P,
    out: &mut O,
) -> Result<Ending, Stop>
    requires total { total_of (E.seen end.old) ≡ 0 }
    ensures cut { OnErr result (TurnCut E.role_of (P.known peer.old) (P.known peer.new) (O.taken out.old) (O.taken out.new) (E.seen end.old)) }
    ensures talked { IfOk result (λ ending. Talked E.role_of (P.known peer.old) (P.known peer.new) (O.taken out.old) (O.taken out.new) (E.seen end.old) (E.seen end.new) ending) }
    ensures read_limit { GaveAtMost (2 ^ 40) (P.known peer.old) (P.known peer.new) }
    ensures peer { TalkCause (P.pipe_faults peer.old) (P.pipe_faults peer.new) result }
    ensures pipe_count { P.pipe_faults peer.new ≡ counted_talk (P.pipe_faults peer.old) result }
    ensures ended { TalkEnded (P.has_ended peer.new) result }
    ensures ended_exact { P.has_ended peer.new ≡ ended_talk (P.has_ended peer.old) result }
    ensures pipe_only { IfOk result (λ ending. (status_of ending ≡ PIPE_FAILED) ⊎ (P.pipe_faults peer.new ≡ P.pipe_faults peer.old)) }
    ensures ended_only { IfOk result (λ ending. (status_of ending ≡ PEER_LOST) ⊎ (P.has_ended peer.new ≡ P.has_ended peer.old)) }
    ensures start_faults { P.start_faults peer.new ≡ P.start_faults peer.old }
    ensures sink { SinkCause (O.faults out.old) (O.faults out.new) result }
    ensures sink_count { O.faults out.new ≡ counted_output (O.faults out.old) result }
    ensures memory_kept { UnlessMemory result (O.memory_faults out.new ≡ O.memory_faults out.old) }
{
    let mut buf = [0u8; 4096];
    let mut total = 0u64;
    loop {
        let next = turn(end, peer, out, &mut buf, &mut total)?;
        if let Some(ending) = next {
            return Ok(ending);
        }
    }
}
