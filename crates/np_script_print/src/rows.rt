//! Lines by what they have, without their end: R a register, V an operand, ID an identifier, N and INT numbers.
//! Where memory runs out, a part of a line may stand.
ghost use Rattle.std.specs.Prelude.{◌≡◌, ◌++◌, ◌∷◌, [], map, OnOk};
ghost use Rattle.std.specs.List.{flat_map};
ghost use Rattle.np_values.specs.NpReason.{reason_code};
ghost use Rattle.np_script_grammar.specs.Rows.{values, range_fields};
ghost use Rattle.np_script_print.specs.Printed.{Grew, line_text};

use crate::fields::{
    behind_handler, behind_integer, behind_key, behind_mode, behind_number, behind_operand,
    behind_operands, behind_ranges, behind_register, behind_text, behind_texts, push_word,
};
use np_idents::IdKey;
use np_script_grammar::{Field, Operand, Operands};
use np_values::{Handler, NoMemory, NpReason, Ranges, Text, Texts};

/// A word alone.
pub fn alone(out: &mut Vec<u8>, word: &str) -> Result<(), NoMemory>
    ensures ok { OnOk result (out.new.items ≡ out.old.items ++ line_text (word.now, [])) }
    ensures begins { Grew out.old.items out.new.items }
{
    push_word(out, word)
}

/// A word and `N`.
pub fn with_number(out: &mut Vec<u8>, word: &str, number: u32) -> Result<(), NoMemory>
    ensures ok { OnOk result (out.new.items ≡ out.old.items ++ line_text (word.now, Field.Number number ∷ [])) }
    ensures begins { Grew out.old.items out.new.items }
{
    push_word(out, word)?;
    behind_number(out, number)
}

/// A word and `TEXT`.
pub fn with_text(out: &mut Vec<u8>, word: &str, text: &Text) -> Result<(), NoMemory>
    ensures ok { OnOk result (out.new.items ≡ out.old.items ++ line_text (word.now, Field.Text text.now ∷ [])) }
    ensures begins { Grew out.old.items out.new.items }
{
    push_word(out, word)?;
    behind_text(out, text)
}

/// A word and `V`.
pub fn with_operand(out: &mut Vec<u8>, word: &str, operand: &Operand) -> Result<(), NoMemory>
    ensures ok { OnOk result (out.new.items ≡ out.old.items ++ line_text (word.now, Field.Operand operand.now ∷ [])) }
    ensures begins { Grew out.old.items out.new.items }
{
    push_word(out, word)?;
    behind_operand(out, operand)
}

/// A word and `R`.
pub fn with_register(out: &mut Vec<u8>, word: &str, register: u8) -> Result<(), NoMemory>
    ensures ok { OnOk result (out.new.items ≡ out.old.items ++ line_text (word.now, Field.Register register ∷ [])) }
    ensures begins { Grew out.old.items out.new.items }
{
    push_word(out, word)?;
    behind_register(out, register)
}

/// A word and `ID`.
pub fn with_key(out: &mut Vec<u8>, word: &str, key: &IdKey) -> Result<(), NoMemory>
    ensures ok { OnOk result (out.new.items ≡ out.old.items ++ line_text (word.now, Field.Identifier key.now ∷ [])) }
    ensures begins { Grew out.old.items out.new.items }
{
    push_word(out, word)?;
    behind_key(out, key)
}

/// A word and `WORD`.
pub fn with_handler(out: &mut Vec<u8>, word: &str, handler: Handler) -> Result<(), NoMemory>
    ensures ok { OnOk result (out.new.items ≡ out.old.items ++ line_text (word.now, Field.HandlerWord handler ∷ [])) }
    ensures begins { Grew out.old.items out.new.items }
{
    push_word(out, word)?;
    behind_handler(out, handler)
}

/// A word and `N N`.
pub fn with_numbers(out: &mut Vec<u8>, word: &str, number: u32, other: u32) -> Result<(), NoMemory>
    ensures ok { OnOk result (out.new.items ≡ out.old.items ++ line_text (word.now, Field.Number number ∷ Field.Number other ∷ [])) }
    ensures begins { Grew out.old.items out.new.items }
{
    with_number(out, word, number)?;
    behind_number(out, other)
}

/// A word and `R N`.
pub fn with_register_number(
    out: &mut Vec<u8>,
    word: &str,
    register: u8,
    number: u32,
) -> Result<(), NoMemory>
    ensures ok { OnOk result (out.new.items ≡ out.old.items ++ line_text (word.now, Field.Register register ∷ Field.Number number ∷ [])) }
    ensures begins { Grew out.old.items out.new.items }
{
    with_register(out, word, register)?;
    behind_number(out, number)
}

/// A word and `R V`.
pub fn with_register_operand(
    out: &mut Vec<u8>,
    word: &str,
    register: u8,
    operand: &Operand,
) -> Result<(), NoMemory>
    ensures ok { OnOk result (out.new.items ≡ out.old.items ++ line_text (word.now, Field.Register register ∷ Field.Operand operand.now ∷ [])) }
    ensures begins { Grew out.old.items out.new.items }
{
    with_register(out, word, register)?;
    behind_operand(out, operand)
}

/// A word and `R TEXT`.
pub fn with_register_text(
    out: &mut Vec<u8>,
    word: &str,
    register: u8,
    text: &Text,
) -> Result<(), NoMemory>
    ensures ok { OnOk result (out.new.items ≡ out.old.items ++ line_text (word.now, Field.Register register ∷ Field.Text text.now ∷ [])) }
    ensures begins { Grew out.old.items out.new.items }
{
    with_register(out, word, register)?;
    behind_text(out, text)
}

/// A word and `N V`.
pub fn with_number_operand(
    out: &mut Vec<u8>,
    word: &str,
    number: u32,
    operand: &Operand,
) -> Result<(), NoMemory>
    ensures ok { OnOk result (out.new.items ≡ out.old.items ++ line_text (word.now, Field.Number number ∷ Field.Operand operand.now ∷ [])) }
    ensures begins { Grew out.old.items out.new.items }
{
    with_number(out, word, number)?;
    behind_operand(out, operand)
}

/// A word and `N TEXT`.
pub fn with_number_text(
    out: &mut Vec<u8>,
    word: &str,
    number: u32,
    text: &Text,
) -> Result<(), NoMemory>
    ensures ok { OnOk result (out.new.items ≡ out.old.items ++ line_text (word.now, Field.Number number ∷ Field.Text text.now ∷ [])) }
    ensures begins { Grew out.old.items out.new.items }
{
    with_number(out, word, number)?;
    behind_text(out, text)
}

/// A word and `TEXT N`.
pub fn with_text_number(
    out: &mut Vec<u8>,
    word: &str,
    text: &Text,
    number: u32,
) -> Result<(), NoMemory>
    ensures ok { OnOk result (out.new.items ≡ out.old.items ++ line_text (word.now, Field.Text text.now ∷ Field.Number number ∷ [])) }
    ensures begins { Grew out.old.items out.new.items }
{
    with_text(out, word, text)?;
    behind_number(out, number)
}

/// A word and `V ID`.
pub fn with_operand_key(
    out: &mut Vec<u8>,
    word: &str,
    operand: &Operand,
    key: &IdKey,
) -> Result<(), NoMemory>
    ensures ok { OnOk result (out.new.items ≡ out.old.items ++ line_text (word.now, Field.Operand operand.now ∷ Field.Identifier key.now ∷ [])) }
    ensures begins { Grew out.old.items out.new.items }
{
    with_operand(out, word, operand)?;
    behind_key(out, key)
}

/// A word and `R N TEXT`.
pub fn with_register_number_text(
    out: &mut Vec<u8>,
    word: &str,
    register: u8,
    number: u32,
    text: &Text,
) -> Result<(), NoMemory>
    ensures ok { OnOk result (out.new.items ≡ out.old.items ++ line_text (word.now, Field.Register register ∷ Field.Number number ∷ Field.Text text.now ∷ [])) }
    ensures begins { Grew out.old.items out.new.items }
{
    with_register_number(out, word, register, number)?;
    behind_text(out, text)
}

/// A word and `R V V`.
pub fn with_register_operand_operand(
    out: &mut Vec<u8>,
    word: &str,
    register: u8,
    operand: &Operand,
    other: &Operand,
) -> Result<(), NoMemory>
    ensures ok { OnOk result (out.new.items ≡ out.old.items ++ line_text (word.now, Field.Register register ∷ Field.Operand operand.now ∷ Field.Operand other.now ∷ [])) }
    ensures begins { Grew out.old.items out.new.items }
{
    with_register_operand(out, word, register, operand)?;
    behind_operand(out, other)
}

/// A word and `R V INT`.
pub fn with_register_operand_integer(
    out: &mut Vec<u8>,
    word: &str,
    register: u8,
    operand: &Operand,
    integer: i32,
) -> Result<(), NoMemory>
    ensures ok { OnOk result (out.new.items ≡ out.old.items ++ line_text (word.now, Field.Register register ∷ Field.Operand operand.now ∷ Field.Integer integer ∷ [])) }
    ensures begins { Grew out.old.items out.new.items }
{
    with_register_operand(out, word, register, operand)?;
    behind_integer(out, integer)
}

/// A word and `R V N`.
pub fn with_reason(
    out: &mut Vec<u8>,
    word: &str,
    register: u8,
    operand: &Operand,
    reason: NpReason,
) -> Result<(), NoMemory>
    ensures ok { OnOk result (out.new.items ≡ out.old.items ++ line_text (word.now, Field.Register register ∷ Field.Operand operand.now ∷ Field.Number (reason_code reason) ∷ [])) }
    ensures begins { Grew out.old.items out.new.items }
{
    with_register_operand(out, word, register, operand)?;
    behind_number(out, u32::from(reason.code()))
}

/// A word and `R V ID`.
pub fn with_register_operand_key(
    out: &mut Vec<u8>,
    word: &str,
    register: u8,
    operand: &Operand,
    key: &IdKey,
) -> Result<(), NoMemory>
    ensures ok { OnOk result (out.new.items ≡ out.old.items ++ line_text (word.now, Field.Register register ∷ Field.Operand operand.now ∷ Field.Identifier key.now ∷ [])) }
    ensures begins { Grew out.old.items out.new.items }
{
    with_register_operand(out, word, register, operand)?;
    behind_key(out, key)
}

/// A word and `V ID V`.
pub fn with_operand_key_operand(
    out: &mut Vec<u8>,
    word: &str,
    operand: &Operand,
    key: &IdKey,
    other: &Operand,
) -> Result<(), NoMemory>
    ensures ok { OnOk result (out.new.items ≡ out.old.items ++ line_text (word.now, Field.Operand operand.now ∷ Field.Identifier key.now ∷ Field.Operand other.now ∷ [])) }
    ensures begins { Grew out.old.items out.new.items }
{
    with_operand_key(out, word, operand, key)?;
    behind_operand(out, other)
}

/// A word and `V V N`.
pub fn with_operand_operand_number(
    out: &mut Vec<u8>,
    word: &str,
    operand: &Operand,
    other: &Operand,
    number: u32,
) -> Result<(), NoMemory>
    ensures ok { OnOk result (out.new.items ≡ out.old.items ++ line_text (word.now, Field.Operand operand.now ∷ Field.Operand other.now ∷ Field.Number number ∷ [])) }
    ensures begins { Grew out.old.items out.new.items }
{
    with_operand(out, word, operand)?;
    behind_operand(out, other)?;
    behind_number(out, number)
}

/// A word and `TEXT TEXT`.
fn with_text_text(out: &mut Vec<u8>, word: &str, text: &Text, other: &Text) -> Result<(), NoMemory>
    ensures ok { OnOk result (out.new.items ≡ out.old.items ++ line_text (word.now, Field.Text text.now ∷ Field.Text other.now ∷ [])) }
    ensures begins { Grew out.old.items out.new.items }
{
    with_text(out, word, text)?;
    behind_text(out, other)
}

/// A word and `TEXT TEXT N TEXT`.
pub fn with_text_text_number_text(
    out: &mut Vec<u8>,
    word: &str,
    text: &Text,
    other: &Text,
    number: u32,
    third: &Text,
) -> Result<(), NoMemory>
    ensures ok { OnOk result (out.new.items ≡ out.old.items ++ line_text (word.now, Field.Text text.now ∷ Field.Text other.now ∷ Field.Number number ∷ Field.Text third.now ∷ [])) }
    ensures begins { Grew out.old.items out.new.items }
{
    with_text_text(out, word, text, other)?;
    behind_number(out, number)?;
    behind_text(out, third)
}

/// A word and `R V V*`.
pub fn with_arguments(
    out: &mut Vec<u8>,
    word: &str,
    register: u8,
    operand: &Operand,
    arguments: &Operands,
) -> Result<(), NoMemory>
    ensures ok { OnOk result (out.new.items ≡ out.old.items ++ line_text (word.now, Field.Register register ∷ Field.Operand operand.now ∷ values arguments.now)) }
    ensures begins { Grew out.old.items out.new.items }
{
    with_register_operand(out, word, register, operand)?;
    behind_operands(out, arguments.as_slice())
}

/// A word and `R V ID V*`.
pub fn with_key_arguments(
    out: &mut Vec<u8>,
    word: &str,
    register: u8,
    operand: &Operand,
    key: &IdKey,
    arguments: &Operands,
) -> Result<(), NoMemory>
    ensures ok { OnOk result (out.new.items ≡ out.old.items ++ line_text (word.now, Field.Register register ∷ Field.Operand operand.now ∷ Field.Identifier key.now ∷ values arguments.now)) }
    ensures begins { Grew out.old.items out.new.items }
{
    with_register_operand_key(out, word, register, operand, key)?;
    behind_operands(out, arguments.as_slice())
}

/// A word and `R V` and pairs `INT N`.
pub fn with_ranges(
    out: &mut Vec<u8>,
    word: &str,
    register: u8,
    operand: &Operand,
    ranges: &Ranges,
) -> Result<(), NoMemory>
    ensures ok { OnOk result (out.new.items ≡ out.old.items ++ line_text (word.now, Field.Register register ∷ Field.Operand operand.now ∷ flat_map range_fields ranges.now)) }
    ensures begins { Grew out.old.items out.new.items }
{
    with_register_operand(out, word, register, operand)?;
    behind_ranges(out, ranges.as_slice())
}

/// A word and `TEXT MODE` and pairs `TEXT TEXT`.
pub fn with_attributes(
    out: &mut Vec<u8>,
    word: &str,
    text: &Text,
    mode: u8,
    attributes: &Texts,
) -> Result<(), NoMemory>
    ensures ok { OnOk result (out.new.items ≡ out.old.items ++ line_text (word.now, Field.Text text.now ∷ Field.Mode mode ∷ map Field.Text attributes.now)) }
    ensures begins { Grew out.old.items out.new.items }
{
    with_text(out, word, text)?;
    behind_mode(out, mode)?;
    behind_texts(out, attributes.as_slice())
}
