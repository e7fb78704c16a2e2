//! How a line's word and its fields are appended, each field after a space. Where memory runs out, a part
//! of it may stand.
ghost use Rattle.std.specs.Prelude.{◌≡◌, ◌++◌, ◌∷◌, [], map, OnOk, OnErr};
ghost use Rattle.std.specs.List.{flat_map};
ghost use Rattle.np_script_grammar.specs.Rows.{values, range_fields};
ghost use Rattle.np_script_print.specs.Printed.{Grew, behind, all_behind};

use np_idents::IdKey;
use np_script_grammar::{Field, Operand};
use np_script_words::{push_handler, push_key, push_mode, push_operand, push_register};
use np_values::{Handler, NoMemory, Range, Text, push_int, push_number, push_quoted};

/// Appends a line's word.
pub fn push_word(out: &mut Vec<u8>, word: &str) -> Result<(), NoMemory>
    ensures ok { OnOk result (out.new.items ≡ out.old.items ++ word.now) }
    ensures begins { Grew out.old.items out.new.items }
{
    out.extend_from_slice(word.as_bytes())?;
    Ok(())
}

fn push_space(out: &mut Vec<u8>) -> Result<(), NoMemory>
    ensures ok { OnOk result (out.new.items ≡ out.old.items ++ 32 ∷ []) }
    ensures err { OnErr result (out.new.items ≡ out.old.items) }
{
    out.push(b' ')?;
    Ok(())
}

/// Appends a register after a space.
pub fn behind_register(out: &mut Vec<u8>, register: u8) -> Result<(), NoMemory>
    ensures ok { OnOk result (out.new.items ≡ out.old.items ++ behind (Field.Register register)) }
    ensures begins { Grew out.old.items out.new.items }
{
    push_space(out)?;
    push_register(out, register)
}

/// Appends an operand after a space.
pub fn behind_operand(out: &mut Vec<u8>, operand: &Operand) -> Result<(), NoMemory>
    ensures ok { OnOk result (out.new.items ≡ out.old.items ++ behind (Field.Operand operand.now)) }
    ensures begins { Grew out.old.items out.new.items }
{
    push_space(out)?;
    push_operand(out, operand)
}

/// Appends a number with a sign after a space.
pub fn behind_integer(out: &mut Vec<u8>, integer: i32) -> Result<(), NoMemory>
    ensures ok { OnOk result (out.new.items ≡ out.old.items ++ behind (Field.Integer integer)) }
    ensures begins { Grew out.old.items out.new.items }
{
    push_space(out)?;
    push_int(out, integer)
}

/// Appends a number after a space.
pub fn behind_number(out: &mut Vec<u8>, number: u32) -> Result<(), NoMemory>
    ensures ok { OnOk result (out.new.items ≡ out.old.items ++ behind (Field.Number number)) }
    ensures begins { Grew out.old.items out.new.items }
{
    push_space(out)?;
    push_number(out, u64::from(number))
}

/// Appends a text after a space.
pub fn behind_text(out: &mut Vec<u8>, text: &Text) -> Result<(), NoMemory>
    ensures ok { OnOk result (out.new.items ≡ out.old.items ++ behind (Field.Text text.now)) }
    ensures begins { Grew out.old.items out.new.items }
{
    push_space(out)?;
    push_quoted(out, text.as_str().as_bytes())
}

/// Appends an identifier after a space.
pub fn behind_key(out: &mut Vec<u8>, key: &IdKey) -> Result<(), NoMemory>
    ensures ok { OnOk result (out.new.items ≡ out.old.items ++ behind (Field.Identifier key.now)) }
    ensures begins { Grew out.old.items out.new.items }
{
    push_space(out)?;
    push_key(out, key)
}

/// Appends a mode after a space.
pub fn behind_mode(out: &mut Vec<u8>, mode: u8) -> Result<(), NoMemory>
    ensures ok { OnOk result (out.new.items ≡ out.old.items ++ behind (Field.Mode mode)) }
    ensures begins { Grew out.old.items out.new.items }
{
    push_space(out)?;
    push_mode(out, mode)
}

/// Appends the word of a handler after a space.
pub fn behind_handler(out: &mut Vec<u8>, handler: Handler) -> Result<(), NoMemory>
    ensures ok { OnOk result (out.new.items ≡ out.old.items ++ behind (Field.HandlerWord handler)) }
    ensures begins { Grew out.old.items out.new.items }
{
    push_space(out)?;
    push_handler(out, handler)
}

/// Appends a range, its offset and its length.
fn behind_range(out: &mut Vec<u8>, range: Range) -> Result<(), NoMemory>
    ensures ok { OnOk result (out.new.items ≡ out.old.items ++ all_behind (range_fields range)) }
    ensures begins { Grew out.old.items out.new.items }
{
    behind_integer(out, range.offset)?;
    behind_number(out, range.length)
}

/// Appends operands, each after a space.
pub fn behind_operands(out: &mut Vec<u8>, operands: &[Operand]) -> Result<(), NoMemory>
    ensures ok { OnOk result (out.new.items ≡ out.old.items ++ all_behind (values operands.now)) }
    ensures begins { Grew out.old.items out.new.items }
{
    for operand in operands {
        behind_operand(out, operand)?;
    }
    Ok(())
}

/// Appends texts, each after a space.
pub fn behind_texts(out: &mut Vec<u8>, texts: &[Text]) -> Result<(), NoMemory>
    ensures ok { OnOk result (out.new.items ≡ out.old.items ++ all_behind (map Field.Text texts.now)) }
    ensures begins { Grew out.old.items out.new.items }
{
    for text in texts {
        behind_text(out, text)?;
    }
    Ok(())
}

/// Appends ranges, each after a space.
pub fn behind_ranges(out: &mut Vec<u8>, ranges: &[Range]) -> Result<(), NoMemory>
    ensures ok { OnOk result (out.new.items ≡ out.old.items ++ all_behind (flat_map range_fields ranges.now)) }
    ensures begins { Grew out.old.items out.new.items }
{
    for range in ranges {
        behind_range(out, *range)?;
    }
    Ok(())
}
