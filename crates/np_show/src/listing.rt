//! Lists the messages of a file, to the end line.

ghost use Rattle.std.specs.Prelude.{◌≡◌, ◌≢◌, ◌<◌, ◌++◌, IfOk, OnOk, OnErr, string_bytes, ◌⊎◌};
ghost use Rattle.np_ports.specs.Causes.{Rose};
ghost use Rattle.np_model.specs.Journal.{end_line};
ghost use Rattle.np_end_stops.specs.Causes.{Adds, AddsPart, SinkCause, MemoryOnly, UnlessMemory, counted_output};
ghost use Rattle.np_show.specs.Listing.{rest_line};
ghost use Rattle.np_show.specs.declared.outcome.Outcome.TheVariants.{FileFailed};
ghost use Rattle.np_show.specs.Show.{ShowsAll, ShowsPart, ShowCut, IsShowStatus, KeepsFiles, NotesReadOnly};
ghost use Rattle.np_show.specs.Taking.{outcome_lines, outcome_status};
ghost use Rattle.np_end_stops.specs.Status.{DONE, FILE_FAILED};

use crate::outcome::Outcome;
use crate::reading::show_messages;
use np_end_lines::{FixedEnd, finish, finish_refused};
use np_end_stops::{Stop, exit_status};
use np_ports::{Files, Sink, print_all};
use np_values::NoMemory;
use std::alloc::Global;

/// The line of the bytes that are left, and the end line of 0.
fn rest_text(alloc: Global, left: u64) -> Result<String, NoMemory>
    requires some { 0 < left }
    ensures text { IfOk result (λ lines. string_bytes lines ≡ rest_line left ++ end_line 0) }
{
    let status = 0u8;
    Ok(format!(in alloc; "rest {left}\nend {status}\n")?)
}

/// Prints that this many bytes are left, where there are any, and the end line of 0.
fn finish_rest<O: Sink>(alloc: Global, out: &mut O, left: u64) -> Result<u8, Stop>
    ensures status { IfOk result (λ s. s ≡ DONE) }
    ensures printed { OnOk result (Adds (O.taken out.old) (O.taken out.new) (rest_line left ++ end_line 0)) }
    ensures part { OnErr result (AddsPart (O.taken out.old) (O.taken out.new) (rest_line left ++ end_line 0)) }
    ensures cause { SinkCause (O.faults out.old) (O.faults out.new) result }
    ensures count { O.faults out.new ≡ counted_output (O.faults out.old) result }
    ensures memory_kept { UnlessMemory result (O.memory_faults out.new ≡ O.memory_faults out.old) }
{
    if left == 0 {
        return finish(out, FixedEnd::Done);
    }
    let lines = rest_text(alloc, left)?;
    print_all(out, lines.as_bytes())?;
    Ok(exit_status::DONE)
}

/// Prints the last lines, and answers the status.
fn finish_listing<O: Sink>(alloc: Global, out: &mut O, outcome: Outcome) -> Result<u8, Stop>
    ensures status { IfOk result (λ s. s ≡ outcome_status outcome) }
    ensures printed { OnOk result (Adds (O.taken out.old) (O.taken out.new) (outcome_lines outcome)) }
    ensures part { OnErr result (AddsPart (O.taken out.old) (O.taken out.new) (outcome_lines outcome)) }
    ensures cause { SinkCause (O.faults out.old) (O.faults out.new) result }
    ensures count { O.faults out.new ≡ counted_output (O.faults out.old) result }
    ensures memory_kept { UnlessMemory result (O.memory_faults out.new ≡ O.memory_faults out.old) }
    ensures file_memory { MemoryOnly result (outcome ≡ FileFailed → Rose (O.memory_faults out.old) (O.memory_faults out.new)) }
{
    match outcome {
        Outcome::Ended(left) => finish_rest(alloc, out, left),
        Outcome::Refused(refusal) => finish_refused(alloc, out, refusal),
        Outcome::FileFailed => finish(out, FixedEnd::FileFailed),
    }
}

/// Lists the messages of the named file of wire bytes, and answers the status: 0, 7 at a message that is
/// refused, 4 where a read of the file failed. It reads in pieces and keeps less than two messages of the file.
/// This project's own.
pub fn show<F: Files, O: Sink>(
    alloc: Global,
    name: &str,
    files: &mut F,
    out: &mut O,
) -> Result<u8, Stop>
    ensures shown { IfOk result (λ status. status ≢ FILE_FAILED → ShowsAll name.now (F.contents files.old) (O.taken out.old) (O.taken out.new) status) }
    ensures part { IfOk result (λ status. status ≡ FILE_FAILED → ShowsPart name.now (F.contents files.old) (O.taken out.old) (O.taken out.new)) }
    ensures cut { OnErr result (ShowCut name.now (Rose (F.faults files.old) (F.faults files.new)) (F.contents files.old) (O.taken out.old) (O.taken out.new)) }
    ensures listed { IfOk result (λ status. IsShowStatus status) }
    ensures file { IfOk result (λ status. status ≡ FILE_FAILED → Rose (F.faults files.old) (F.faults files.new)) }
    ensures file_only { IfOk result (λ status. (status ≡ FILE_FAILED) ⊎ (F.faults files.new ≡ F.faults files.old)) }
    ensures sink { SinkCause (O.faults out.old) (O.faults out.new) result }
    ensures sink_count { O.faults out.new ≡ counted_output (O.faults out.old) result }
    ensures memory_kept { UnlessMemory result (O.memory_faults out.new ≡ O.memory_faults out.old) }
    ensures file_memory { MemoryOnly result ((F.faults files.new ≡ F.faults files.old) ⊎ Rose (O.memory_faults out.old) (O.memory_faults out.new)) }
    ensures files { KeepsFiles (F.contents files.old) (F.contents files.new) }
    ensures failed_calls { NotesReadOnly name.now (F.failed_calls files.old) (F.failed_calls files.new) }
{
    let outcome = show_messages(alloc, name, files, out)?;
    let status = finish_listing(alloc, out, outcome)?;
    Ok(status)
}
