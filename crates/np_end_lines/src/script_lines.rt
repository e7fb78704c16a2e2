//! The end line of a script that isn't served.

ghost use Rattle.std.specs.Prelude.{◌≡◌, ◌++◌, IfOk, OnOk, OnErr, string_bytes};
ghost use Rattle.np_end_lines.specs.ScriptLines.{script_error_line, unbuilt_line, kind_name as name_of_kind};
ghost use Rattle.np_end_stops.specs.Causes.{Adds, AddsPart, SinkCause, UnlessMemory, counted_output, counted_memory_stop};
ghost use Rattle.np_end_stops.specs.Status.{BAD_SCRIPT};

use crate::lines::print_line;
use np_end_stops::{Stop, exit_status};
use np_ports::Sink;
use np_script_grammar::{ScriptError, ScriptKind};
use np_values::NoMemory;
use std::alloc::Global;

fn kind_name(kind: ScriptKind) -> &'static str
    ensures value { result.now ≡ name_of_kind kind }
{
    match kind {
        ScriptKind::Size => "size",
        ScriptKind::Bytes => "bytes",
        ScriptKind::Word => "word",
        ScriptKind::Form => "form",
        ScriptKind::Limit => "limit",
        ScriptKind::Twice => "twice",
        ScriptKind::End => "end",
    }
}

fn script_error_text(alloc: Global, error: ScriptError) -> Result<String, NoMemory>
    ensures text { IfOk result (λ line. string_bytes line ≡ script_error_line error) }
{
    let line = error.line;
    let name = kind_name(error.kind);
    Ok(format!(in alloc; "end 3 line {line} {name}\n")?)
}

/// Prints the end line of a script that was refused, and answers its status, 3. After an error a part of
/// the line was printed.
#[tactic(auto, using(crate::proofs::EndLines::nothing_added, crate::proofs::EndLines::script_error_line_is_some))]
pub fn finish_script<O: Sink>(alloc: Global, out: &mut O, error: ScriptError) -> Result<u8, Stop>
    ensures status { IfOk result (λ s. s ≡ BAD_SCRIPT) }
    ensures printed { OnOk result (Adds (O.taken out.old) (O.taken out.new) (script_error_line error)) }
    ensures part { OnErr result (AddsPart (O.taken out.old) (O.taken out.new) (script_error_line error)) }
    ensures cause { SinkCause (O.faults out.old) (O.faults out.new) result }
    ensures count { O.faults out.new ≡ counted_output (O.faults out.old) result }
    ensures memory_kept { UnlessMemory result (O.memory_faults out.new ≡ O.memory_faults out.old) }
{
    match script_error_text(alloc, error) {
        Ok(line) => print_line(out, line.as_str(), exit_status::BAD_SCRIPT),
        Err(NoMemory) => Err(Stop::NoMemory),
    }
}

/// Prints the end line of a script that isn't supported yet, and answers its status, 3. After an error a part
/// of the line was printed.
pub fn finish_unbuilt<O: Sink>(out: &mut O) -> Result<u8, Stop>
    ensures status { IfOk result (λ s. s ≡ BAD_SCRIPT) }
    ensures printed { OnOk result (Adds (O.taken out.old) (O.taken out.new) unbuilt_line) }
    ensures part { OnErr result (AddsPart (O.taken out.old) (O.taken out.new) unbuilt_line) }
    ensures cause { SinkCause (O.faults out.old) (O.faults out.new) result }
    ensures count { O.faults out.new ≡ counted_output (O.faults out.old) result }
    ensures memory_count { O.memory_faults out.new ≡ counted_memory_stop (O.memory_faults out.old) result }
{
    print_line(out, "end 3 unbuilt\n", exit_status::BAD_SCRIPT)
}
