//! A file is read piece by piece, and the lines of its messages are printed.

ghost use Rattle.std.specs.Prelude.{◌≡◌, ◌+◌, ◌<◌, ◌^◌, [], length, OnOk, OnErr, IfOk, Some, ◌⊎◌};
ghost use Rattle.np_ports.specs.Causes.{Rose};
ghost use Rattle.np_ports.specs.Files.{Contents};
ghost use Rattle.np_end_stops.specs.Causes.{SinkCause, UnlessMemory, counted_output};
ghost use Rattle.np_show.specs.Listing.{file_listing};
ghost use Rattle.np_show.specs.Show.{KeepsFiles, NotesReadOnly};
ghost use Rattle.np_show.specs.Taking.{PrintsPiece, PrintsPieceFront, StandsAt, AddsFront, ComesTo, FailedOnly};
ghost use Rattle.np_show.specs.declared.outcome.Outcome.TheVariants.{FileFailed};

use crate::lines::take_lines;
use crate::outcome::Outcome;
use np_end_stops::Stop;
use np_message::WireError;
use np_model::{BYTE_LIMIT, Refusal, TOO_MANY_BYTES};
use np_ports::{Files, PortError, Sink, print_all};
use np_wire::Feed;
use std::alloc::Global;

/// Gives a piece of the file to the feed, and prints the lines of the messages that are whole then.
fn show_piece<O: Sink>(
    piece: &[u8],
    feed: &mut Feed,
    lines: &mut Vec<u8>,
    out: &mut O,
) -> Result<Option<WireError>, Stop>
    requires room { feed.old.consumed + length feed.old.left + length piece.now < 2 ^ 64 }
    ensures printed { OnOk result (PrintsPiece piece.now feed.old feed.new (O.taken out.old) (O.taken out.new)) }
    ensures front { OnErr result (PrintsPieceFront piece.now feed.old (O.taken out.old) (O.taken out.new)) }
    ensures stands { IfOk result (λ fault. StandsAt feed.new fault) }
    ensures total { OnOk result (feed.new.consumed + length feed.new.left ≡ feed.old.consumed + length feed.old.left + length piece.now) }
    ensures sink { SinkCause (O.faults out.old) (O.faults out.new) result }
    ensures sink_count { O.faults out.new ≡ counted_output (O.faults out.old) result }
    ensures memory_kept { UnlessMemory result (O.memory_faults out.new ≡ O.memory_faults out.old) }
{
    feed.push(piece)?;
    lines.clear();
    let fault = take_lines(feed, lines)?;
    print_all(out, lines)?;
    Ok(fault)
}

/// Prints the lines of the messages of a file.
pub fn show_messages<F: Files, O: Sink>(
    alloc: Global,
    name: &str,
    files: &mut F,
    out: &mut O,
) -> Result<Outcome, Stop>
    ensures comes { IfOk result (λ outcome. (f : Contents) → F.contents files.old ≡ Some f → ComesTo (f name.now) (O.taken out.old) (O.taken out.new) outcome) }
    ensures front { OnErr result ((f : Contents) → F.contents files.old ≡ Some f → AddsFront (O.taken out.old) (O.taken out.new) (file_listing (f name.now)).lines) }
    ensures file { IfOk result (λ outcome. FailedOnly outcome (Rose (F.faults files.old) (F.faults files.new))) }
    ensures file_only { IfOk result (λ outcome. (outcome ≡ FileFailed) ⊎ (F.faults files.new ≡ F.faults files.old)) }
    ensures file_cut { OnErr result (F.faults files.new ≡ F.faults files.old) }
    ensures sink { SinkCause (O.faults out.old) (O.faults out.new) result }
    ensures sink_count { O.faults out.new ≡ counted_output (O.faults out.old) result }
    ensures memory_kept { UnlessMemory result (O.memory_faults out.new ≡ O.memory_faults out.old) }
    ensures files { KeepsFiles (F.contents files.old) (F.contents files.new) }
    ensures failed_calls { NotesReadOnly name.now (F.failed_calls files.old) (F.failed_calls files.new) }
{
    let mut feed = Feed::new(alloc);
    let mut lines = Vec::new(alloc);
    let mut buf = [0u8; 4096];
    let mut total = 0;
    while total < BYTE_LIMIT {
        let room = (BYTE_LIMIT - total).min(4096) as usize;
        let n = match files.read(name, total, &mut buf[..room]) {
            Ok(n) => n,
            Err(PortError::Failed) => return Ok(Outcome::FileFailed),
            Err(PortError::NoMemory) => return Err(Stop::NoMemory),
        };
        if n == 0 {
            return Ok(Outcome::Ended(total - feed.consumed()));
        }
        if let Some(error) = show_piece(&buf[..n], &mut feed, &mut lines, out)? {
            return Ok(Outcome::Refused(Refusal::of_fault(error)));
        }
        total += n as u64;
    }
    Ok(Outcome::Refused(TOO_MANY_BYTES))
}
