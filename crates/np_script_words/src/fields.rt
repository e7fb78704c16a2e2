//! What stands after the first word of a line.
ghost use Rattle.std.specs.Prelude.{◌≡◌, ◌≤◌, ◌<◌, ◌||◌, nat_lt, length, true, false, IfOk};
ghost use Rattle.np_script_grammar.specs.Forms.{KeepsLimits};
ghost use Rattle.np_script_words.specs.Reads.{Reads};
ghost use Rattle.np_script_words.specs.Forms.{form_value};
ghost use Rattle.np_script_words.specs.Lines.{SaysFields, TakesField, TakesItems};

use crate::field::read_field;
use crate::line::{has_word, next_word};
use crate::{FieldError, Form};
use np_script_grammar::{Fields, Item};
use std::alloc::Global;

/// The fields of a line as far as it was read. Once a limit was passed, none is kept.
#[derive(Drop)]
struct Reading {
    fields: Fields,
    passed: bool,
}

/// Reads one field.
fn take_field(
    reading: &mut Reading,
    alloc: Global,
    item: Item,
    word: &[u8],
) -> Result<(), FieldError>
    ensures value { TakesField item word.now reading.old reading.new result }
{
    match read_field(alloc, item, word) {
        Ok(field) => {
            if !reading.passed {
                reading.fields.push(field)?;
            }
            Ok(())
        }
        Err(FieldError::Limit) => {
            reading.passed = true;
            Ok(())
        }
        Err(error) => Err(error),
    }
}

/// Reads a field for each item, and gives what stands after them.
fn take_items<'a>(
    reading: &mut Reading,
    alloc: Global,
    items: &[Item],
    line: &'a [u8],
) -> Result<&'a [u8], FieldError>
    ensures value { TakesItems items.now line.now reading.old reading.new result }
    ensures within { IfOk result (λ rest. length rest.now ≤ length line.now) }
    ensures shorter { IfOk result (λ rest. 0 < length items.now → length rest.now < length line.now) }
{
    let mut left = line;
    for item in items {
        let Some((word, behind)) = next_word(left) else {
            return Err(FieldError::Form);
        };
        take_field(reading, alloc, *item, word)?;
        left = behind;
    }
    Ok(left)
}

/// Whether a limit is passed, with this many groups.
fn passes(passed: bool, groups: usize, most: u8) -> bool
    ensures value { result ≡ (passed || nat_lt most groups) }
{
    passed || groups > usize::from(most)
}

/// Whether there are as many groups as a form wants.
fn has_enough(form: Form, groups: usize) -> bool
    ensures yes { result ≡ true → groups < form.least → length form.group.now ≡ 0 }
    ensures no { result ≡ false → (groups < form.least) × (0 < length form.group.now) }
{
    form.group.is_empty() || groups >= usize::from(form.least)
}

/// The fields of this form that the words of a line's rest spell. The form of the whole rest is judged before
/// any limit.
pub fn read_fields(alloc: Global, form: Form, rest: &[u8]) -> Result<Fields, FieldError>
    ensures value { Reads (SaysFields (form_value form) rest.now) (KeepsLimits (form_value form)) result }
{
    let mut reading = Reading {
        fields: Fields::new(alloc),
        passed: false,
    };
    let mut left = take_items(&mut reading, alloc, form.items, rest)?;
    let mut groups = 0;
    while has_word(left) {
        if form.group.is_empty() {
            return Err(FieldError::Form);
        }
        groups += 1;
        reading.passed = passes(reading.passed, groups, form.most);
        left = take_items(&mut reading, alloc, form.group, left)?;
    }
    if !has_enough(form, groups) {
        return Err(FieldError::Form);
    }
    if reading.passed {
        return Err(FieldError::Limit);
    }
    Ok(reading.fields)
}
