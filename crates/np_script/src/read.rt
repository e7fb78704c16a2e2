//! One line of a script.
ghost use Rattle.std.specs.Prelude.{◌≡◌, ◌≢◌, [], ◌∷◌, List, ℕ, true, false, Err};
ghost use Rattle.np_script_grammar.specs.Words.{words_of};
ghost use Rattle.np_script_grammar.specs.Forms.{HasForm, KeepsLimits};
ghost use Rattle.np_script_words.specs.Forms.{form_value};
ghost use Rattle.np_script_words.specs.Reads.{Reads};
ghost use Rattle.np_script_words.specs.Lines.{SaysFields};
ghost use Rattle.np_script.specs.Reading.{CanBuild, ReadsWords, HasRead, ReadsLine};

use np_script_builder::{Builder, built_goes_on};
use np_script_grammar::{Fields, ScriptKind};
use np_script_order::{Order, OrderError};
use np_script_text_laws::{lines_go_on, skipped_lines_go_on};
use np_script_words::{FieldError, Form, form_at, is_plain_line, next_word, read_fields};
use np_values::{NoMemory, Side};
use std::alloc::Global;

/// Why a line isn't read.
#[derive(Clone, Copy, Debug, PartialEq, Eq)]
pub enum LineError {
    /// No script continues with it, for this.
    Refused(ScriptKind),
    NoMemory,
}

/// Whether a form wants fields.
#[tactic(auto, using(crate::proofs::NoFields::of_none, crate::proofs::NoFields::of_one))]
fn wants_fields(form: Form) -> bool
    ensures yes { result ≡ true → ¬ HasForm (form_value form) [] }
    ensures no { result ≡ false → HasForm (form_value form) [] }
{
    !form.items.is_empty() || (form.least > 0 && !form.group.is_empty())
}

/// The fields of a line's rest. Where there are none, that is found without memory.
fn fields_of(alloc: Global, form: Form, rest: &[u8]) -> Result<Fields, FieldError>
    ensures value { Reads (SaysFields (form_value form) rest.now) (KeepsLimits (form_value form)) result }
    ensures memory { result ≡ Err FieldError.NoMemory → words_of rest.now ≢ [] }
{
    if next_word(rest).is_some() {
        return read_fields(alloc, form, rest);
    }
    if wants_fields(form) {
        return Err(FieldError::Form);
    }
    Ok(Fields::new(alloc))
}

/// Reads a line that counts, whose first word and rest these are.
fn read_words(
    alloc: Global,
    side: Side,
    order: &mut Order,
    builder: &mut Builder,
    word: &[u8],
    rest: &[u8],
) -> Result<(), LineError>
    requires builds { CanBuild side order.old builder.old }
    ensures words { ReadsWords side order.old builder.old (word.now ∷ words_of rest.now) order.new builder.new result }
{
    let place = order.place();
    let Some(form) = form_at(side, place, word) else {
        return Err(LineError::Refused(ScriptKind::Word));
    };
    let fields = match fields_of(alloc, form, rest) {
        Ok(fields) => fields,
        Err(FieldError::Form) => return Err(LineError::Refused(ScriptKind::Form)),
        Err(FieldError::Limit) => return Err(LineError::Refused(ScriptKind::Limit)),
        Err(FieldError::NoMemory) => return Err(LineError::NoMemory),
    };
    match order.accept(word, rest, &fields) {
        Ok(()) => {}
        Err(OrderError::Limit) => return Err(LineError::Refused(ScriptKind::Limit)),
        Err(OrderError::Twice) => return Err(LineError::Refused(ScriptKind::Twice)),
        Err(OrderError::NoMemory) => return Err(LineError::NoMemory),
    }
    match builder.take(alloc, place, word, fields) {
        Ok(()) => Ok(()),
        Err(NoMemory) => Err(LineError::NoMemory),
    }
}

/// Reads the next line of a script. One without words, and one that begins with #, is skipped.
pub fn read_line(
    alloc: Global,
    side: Side,
    order: &mut Order,
    builder: &mut Builder,
    line: &[u8],
) -> Result<(), LineError>
    requires builds { CanBuild side order.old builder.old }
    ensures line { ReadsLine side order.old builder.old line.now order.new builder.new result }
{
    lines_go_on();
    skipped_lines_go_on();
    built_goes_on();
    if !is_plain_line(line) {
        return Err(LineError::Refused(ScriptKind::Bytes));
    }
    let Some((word, rest)) = next_word(line) else {
        return Ok(());
    };
    if word[0] == b'#' {
        return Ok(());
    }
    read_words(alloc, side, order, builder, word, rest)
}
