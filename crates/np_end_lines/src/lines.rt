//! The end line of a run.

ghost use Rattle.std.specs.Prelude.{◌≡◌, ◌++◌, IfOk, OnOk, OnErr, string_bytes};
ghost use Rattle.np_model.specs.Journal.{end_line, refused_line, rule_name as name_of_rule};
ghost use Rattle.np_end_stops.specs.Causes.{Adds, AddsPart, SinkCause, UnlessMemory, counted_output, counted_memory_stop};
ghost use Rattle.np_end_stops.specs.Status.{REFUSED};
ghost use Rattle.np_end_lines.specs.FixedEnds.{fixed_status};

use crate::fixed_end::FixedEnd;
use np_end_stops::{Stop, exit_status};
use np_model::{Refusal, Rule};
use np_ports::{PortError, Sink, print_all};
use np_values::NoMemory;
use std::alloc::Global;

fn rule_name(rule: Rule) -> &'static str
    ensures value { result.now ≡ name_of_rule rule }
{
    match rule {
        Rule::Bytes => "bytes",
        Rule::Length => "length",
        Rule::Item => "item",
        Rule::Rest => "rest",
        Rule::WrongKind => "wrong-kind",
        Rule::Place => "place",
        Rule::Held => "held",
        Rule::Unmatched => "unmatched",
        Rule::Unknown => "unknown",
        Rule::TooMany => "too-many",
        Rule::CountFull => "count-full",
    }
}

fn refused_text(alloc: Global, refusal: Refusal) -> Result<String, NoMemory>
    ensures text { IfOk result (λ line. string_bytes line ≡ refused_line refusal) }
{
    let at = refusal.at;
    let name = rule_name(refusal.rule);
    let first = refusal.first;
    let second = refusal.second;
    Ok(format!(in alloc; "end 7 at {at} {name} {first} {second}\n")?)
}

/// Prints a line, and answers the status.
pub fn print_line<O: Sink>(out: &mut O, line: &str, status: u8) -> Result<u8, Stop>
    ensures status { IfOk result (λ s. s ≡ status) }
    ensures printed { OnOk result (Adds (O.taken out.old) (O.taken out.new) line.now) }
    ensures part { OnErr result (AddsPart (O.taken out.old) (O.taken out.new) line.now) }
    ensures cause { SinkCause (O.faults out.old) (O.faults out.new) result }
    ensures count { O.faults out.new ≡ counted_output (O.faults out.old) result }
    ensures memory_count { O.memory_faults out.new ≡ counted_memory_stop (O.memory_faults out.old) result }
{
    match print_all(out, line.as_bytes()) {
        Ok(()) => Ok(status),
        Err(PortError::Failed) => Err(Stop::OutputFailed),
        Err(PortError::NoMemory) => Err(Stop::NoMemory),
    }
}

/// Prints the end line of an end, and answers its status. After an error a part of the line was printed. It takes no
/// memory, so memory runs out only where it does in the sink.
pub fn finish<O: Sink>(out: &mut O, end: FixedEnd) -> Result<u8, Stop>
    ensures status { IfOk result (λ s. s ≡ fixed_status end) }
    ensures printed { OnOk result (Adds (O.taken out.old) (O.taken out.new) (end_line (fixed_status end))) }
    ensures part { OnErr result (AddsPart (O.taken out.old) (O.taken out.new) (end_line (fixed_status end))) }
    ensures cause { SinkCause (O.faults out.old) (O.faults out.new) result }
    ensures count { O.faults out.new ≡ counted_output (O.faults out.old) result }
    ensures memory_count { O.memory_faults out.new ≡ counted_memory_stop (O.memory_faults out.old) result }
{
    print_line(out, end.line(), end.status())
}

/// Prints the end line of a refusal, and answers its status, 7. After an error a part of the line was
/// printed.
#[tactic(auto, using(crate::proofs::EndLines::nothing_added, crate::proofs::EndLines::refused_line_is_some))]
pub fn finish_refused<O: Sink>(alloc: Global, out: &mut O, refusal: Refusal) -> Result<u8, Stop>
    ensures status { IfOk result (λ s. s ≡ REFUSED) }
    ensures printed { OnOk result (Adds (O.taken out.old) (O.taken out.new) (refused_line refusal)) }
    ensures part { OnErr result (AddsPart (O.taken out.old) (O.taken out.new) (refused_line refusal)) }
    ensures cause { SinkCause (O.faults out.old) (O.faults out.new) result }
    ensures count { O.faults out.new ≡ counted_output (O.faults out.old) result }
    ensures memory_kept { UnlessMemory result (O.memory_faults out.new ≡ O.memory_faults out.old) }
{
    match refused_text(alloc, refusal) {
        Ok(line) => print_line(out, line.as_str(), exit_status::REFUSED),
        Err(NoMemory) => Err(Stop::NoMemory),
    }
}
