//! Checks a script: prints its canonical text, or the line of its first error.

ghost use Rattle.std.specs.Prelude.{◌≡◌, ◌⊎◌, ◌++◌, ℕ, List, Ok, Err, IfOk, IsOk, OnOk, OnErr};
ghost use Rattle.np_values.specs.declared.name.Side.TheVariants.{Page as of_page, Plug as of_plugin};
ghost use Rattle.np_script_grammar.specs.declared.refusal.ScriptError.{ScriptError as ErrorValue};
ghost use Rattle.np_script_grammar.specs.Refusals.{FirstError};
ghost use Rattle.np_ports.specs.Causes.{Rose};
ghost use Rattle.np_end_stops.specs.Causes.{Adds, AddsPart, SinkCause, MemoryOnly, UnlessMemory, counted_output};
ghost use Rattle.np_show.specs.Show.{KeepsFiles, NotesReadOnly};
ghost use Rattle.np_host.specs.Host.{PrintsEarlyLine};
ghost use Rattle.np_host.specs.Check.{IsCanonicalOf, PrintsCanonical, PrintsError, OnlyChecked, CheckCut, IsCheckStatus};
ghost use Rattle.np_end_stops.specs.Status.{BAD_SCRIPT, DONE, FILE_FAILED};

use np_end_lines::{FixedEnd, finish, finish_script};
use np_end_stops::{Stop, exit_status};
use np_ports::{Files, PortError, Sink, print_all, read_script};
use np_script::{ParseError, parse_page, parse_plugin, print_page, print_plugin};
use np_values::{NoMemory, Side};
use std::alloc::Global;

/// The canonical text of a page script.
fn page_text(alloc: Global, bytes: &[u8]) -> Result<Vec<u8>, ParseError>
    ensures ok { IfOk result (λ text. IsCanonicalOf of_page bytes.now text.items) }
    ensures read { (text : List ℕ) → IsCanonicalOf of_page bytes.now text → IsOk result ⊎ (result ≡ Err ParseError.NoMemory) }
    ensures refused { (e : ErrorValue) → result ≡ Err (ParseError.Script e) → FirstError of_page bytes.now e }
    ensures refused_only { (e : ErrorValue) → FirstError of_page bytes.now e → (result ≡ Err (ParseError.Script e)) ⊎ (result ≡ Err ParseError.NoMemory) }
{
    let script = match parse_page(alloc, bytes) {
        Ok(script) => script,
        Err(error) => return Err(error),
    };
    let mut text = Vec::new(alloc);
    match print_page(script.page(), &mut text) {
        Ok(()) => Ok(text),
        Err(NoMemory) => Err(ParseError::NoMemory),
    }
}

/// The canonical text of a plug-in script.
fn plugin_text(alloc: Global, bytes: &[u8]) -> Result<Vec<u8>, ParseError>
    ensures ok { IfOk result (λ text. IsCanonicalOf of_plugin bytes.now text.items) }
    ensures read { (text : List ℕ) → IsCanonicalOf of_plugin bytes.now text → IsOk result ⊎ (result ≡ Err ParseError.NoMemory) }
    ensures refused { (e : ErrorValue) → result ≡ Err (ParseError.Script e) → FirstError of_plugin bytes.now e }
    ensures refused_only { (e : ErrorValue) → FirstError of_plugin bytes.now e → (result ≡ Err (ParseError.Script e)) ⊎ (result ≡ Err ParseError.NoMemory) }
{
    let script = match parse_plugin(alloc, bytes) {
        Ok(script) => script,
        Err(error) => return Err(error),
    };
    let mut text = Vec::new(alloc);
    match print_plugin(script.plugin(), &mut text) {
        Ok(()) => Ok(text),
        Err(NoMemory) => Err(ParseError::NoMemory),
    }
}

/// The canonical text of a script of this side.
fn canonical_text(alloc: Global, side: Side, bytes: &[u8]) -> Result<Vec<u8>, ParseError>
    ensures ok { IfOk result (λ text. IsCanonicalOf side bytes.now text.items) }
    ensures read { (text : List ℕ) → IsCanonicalOf side bytes.now text → IsOk result ⊎ (result ≡ Err ParseError.NoMemory) }
    ensures refused { (e : ErrorValue) → result ≡ Err (ParseError.Script e) → FirstError side bytes.now e }
    ensures refused_only { (e : ErrorValue) → FirstError side bytes.now e → (result ≡ Err (ParseError.Script e)) ⊎ (result ≡ Err ParseError.NoMemory) }
{
    match side {
        Side::Page => page_text(alloc, bytes),
        Side::Plug => plugin_text(alloc, bytes),
    }
}

/// Prints a text alone, and answers 0.
fn print_text<O: Sink>(out: &mut O, text: &[u8]) -> Result<u8, Stop>
    ensures status { IfOk result (λ s. s ≡ DONE) }
    ensures printed { OnOk result (Adds (O.taken out.old) (O.taken out.new) text.now) }
    ensures part { OnErr result (AddsPart (O.taken out.old) (O.taken out.new) text.now) }
    ensures cause { SinkCause (O.faults out.old) (O.faults out.new) result }
    ensures count { O.faults out.new ≡ counted_output (O.faults out.old) result }
    ensures memory_kept { UnlessMemory result (O.memory_faults out.new ≡ O.memory_faults out.old) }
{
    match print_all(out, text) {
        Ok(()) => Ok(exit_status::DONE),
        Err(PortError::Failed) => Err(Stop::OutputFailed),
        Err(PortError::NoMemory) => Err(Stop::NoMemory),
    }
}

/// Checks the named file as a script of this side, and answers the status: 0 with its canonical text, without
/// an end line; 3 and 4 with their end lines.
pub fn check<F: Files, O: Sink>(
    alloc: Global,
    side: Side,
    name: &str,
    files: &mut F,
    out: &mut O,
) -> Result<u8, Stop>
    ensures done { IfOk result (λ status. status ≡ DONE → PrintsCanonical side name.now (F.contents files.old) (O.taken out.old) (O.taken out.new)) }
    ensures refused { IfOk result (λ status. status ≡ BAD_SCRIPT → PrintsError side name.now (F.contents files.old) (O.taken out.old) (O.taken out.new)) }
    ensures only { IfOk result (λ status. OnlyChecked side name.now (F.contents files.old) status) }
    ensures cut { OnErr result (CheckCut side name.now (Rose (F.faults files.old) (F.faults files.new)) (F.contents files.old) (O.taken out.old) (O.taken out.new)) }
    ensures early { IfOk result (λ status. (status ≡ BAD_SCRIPT) ⊎ (status ≡ FILE_FAILED) → PrintsEarlyLine (O.taken out.old) (O.taken out.new) status) }
    ensures listed { IfOk result (λ status. IsCheckStatus status) }
    ensures file { IfOk result (λ status. status ≡ FILE_FAILED → Rose (F.faults files.old) (F.faults files.new)) }
    ensures file_only { IfOk result (λ status. (status ≡ FILE_FAILED) ⊎ (F.faults files.new ≡ F.faults files.old)) }
    ensures sink { SinkCause (O.faults out.old) (O.faults out.new) result }
    ensures sink_count { O.faults out.new ≡ counted_output (O.faults out.old) result }
    ensures memory_kept { UnlessMemory result (O.memory_faults out.new ≡ O.memory_faults out.old) }
    ensures file_memory { MemoryOnly result ((F.faults files.new ≡ F.faults files.old) ⊎ Rose (O.memory_faults out.old) (O.memory_faults out.new)) }
    ensures files { KeepsFiles (F.contents files.old) (F.contents files.new) }
    ensures failed_calls { NotesReadOnly name.now (F.failed_calls files.old) (F.failed_calls files.new) }
{
    let bytes = match read_script(alloc, files, name) {
        Ok(bytes) => bytes,
        Err(PortError::Failed) => return finish(out, FixedEnd::FileFailed),
        Err(PortError::NoMemory) => return Err(Stop::NoMemory),
    };
    match canonical_text(alloc, side, &bytes) {
        Ok(text) => print_text(out, &text),
        Err(ParseError::Script(error)) => finish_script(alloc, out, error),
        Err(ParseError::NoMemory) => Err(Stop::NoMemory),
    }
}
