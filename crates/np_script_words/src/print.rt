//! How fields are printed. After an error the output is as it was.
ghost use Rattle.std.specs.Prelude.{◌≡◌, ◌++◌, codes, length, OnOk, OnErr};
ghost use Rattle.np_script_grammar.specs.Fields.{hexadecimal, register_word, value_word, operand_word, key_word, mode_word, handler_word, field_word};

use itoa::Buffer;
use np_idents::IdKey;
use np_script_grammar::{Field, NP_EMBED, Operand};
use np_values::{Handler, NoMemory, Value, push_int, push_number, push_quoted};

/// Appends two pieces.
fn push_both(out: &mut Vec<u8>, first: &[u8], second: &[u8]) -> Result<(), NoMemory>
    ensures ok { OnOk result (out.new.items ≡ out.old.items ++ (first.now ++ second.now)) }
    ensures err { OnErr result (out.new.items ≡ out.old.items) }
{
    let length = out.len();
    out.extend_from_slice(first)?;
    match out.extend_from_slice(second) {
        Ok(()) => Ok(()),
        Err(_) => {
            out.truncate(length);
            Err(NoMemory)
        }
    }
}

fn push_word(out: &mut Vec<u8>, word: &str) -> Result<(), NoMemory>
    ensures ok { OnOk result (out.new.items ≡ out.old.items ++ word.now) }
    ensures err { OnErr result (out.new.items ≡ out.old.items) }
{
    out.extend_from_slice(word.as_bytes())?;
    Ok(())
}

/// Appends the word of a register, as `$0`.
pub fn push_register(out: &mut Vec<u8>, number: u8) -> Result<(), NoMemory>
    ensures ok { OnOk result (out.new.items ≡ out.old.items ++ register_word number) }
    ensures err { OnErr result (out.new.items ≡ out.old.items) }
{
    push_both(out, b"$", Buffer::new().format(number).as_bytes())
}

fn push_digits(out: &mut Vec<u8>, bytes: &[u8]) -> Result<(), NoMemory>
    requires eight { length bytes.now ≡ 8 }
    ensures ok { OnOk result (out.new.items ≡ out.old.items ++ (codes "d:" ++ hexadecimal bytes.now)) }
    ensures err { OnErr result (out.new.items ≡ out.old.items) }
{
    let mut digits = [0; 16];
    match hex::encode_to_slice(bytes, &mut digits) {
        Ok(()) => push_both(out, b"d:", &digits),
        Err(_) => Err(NoMemory),
    }
}

/// Appends the word of a double, `d:` and 16 digits.
fn push_double(out: &mut Vec<u8>, bytes: [u8; 8]) -> Result<(), NoMemory>
    ensures ok { OnOk result (out.new.items ≡ out.old.items ++ (codes "d:" ++ hexadecimal bytes)) }
    ensures err { OnErr result (out.new.items ≡ out.old.items) }
{
    push_digits(out, bytes.as_slice())
}

/// Appends the word of a constant. An object has none, and nothing is appended for it.
pub fn push_value(out: &mut Vec<u8>, value: &Value) -> Result<(), NoMemory>
    ensures ok { OnOk result (out.new.items ≡ out.old.items ++ value_word value.now) }
    ensures err { OnErr result (out.new.items ≡ out.old.items) }
{
    match value {
        Value::Void => push_word(out, "void"),
        Value::Null => push_word(out, "null"),
        Value::Bool(truth) => push_word(out, if *truth { "true" } else { "false" }),
        Value::Int(number) => push_int(out, *number),
        Value::Double(bytes) => push_double(out, *bytes),
        Value::Text(text) => push_quoted(out, text.as_str().as_bytes()),
        Value::Object(_) => Ok(()),
    }
}

/// Appends the word of an operand.
pub fn push_operand(out: &mut Vec<u8>, operand: &Operand) -> Result<(), NoMemory>
    ensures ok { OnOk result (out.new.items ≡ out.old.items ++ operand_word operand.now) }
    ensures err { OnErr result (out.new.items ≡ out.old.items) }
{
    match operand {
        Operand::Reg(number) => push_register(out, *number),
        Operand::Const(value) => push_value(out, value),
    }
}

/// Appends the word of an identifier.
pub fn push_key(out: &mut Vec<u8>, key: &IdKey) -> Result<(), NoMemory>
    ensures ok { OnOk result (out.new.items ≡ out.old.items ++ key_word key.now) }
    ensures err { OnErr result (out.new.items ≡ out.old.items) }
{
    match key {
        IdKey::Str(text) => push_quoted(out, text.as_str().as_bytes()),
        IdKey::Int(number) => push_int(out, *number),
    }
}

/// Appends the word of a mode, which is `NP_EMBED` or `NP_FULL` of npapi.h.
pub fn push_mode(out: &mut Vec<u8>, mode: u8) -> Result<(), NoMemory>
    ensures ok { OnOk result (out.new.items ≡ out.old.items ++ mode_word mode) }
    ensures err { OnErr result (out.new.items ≡ out.old.items) }
{
    push_word(out, if mode == NP_EMBED { "embed" } else { "full" })
}

/// Appends the word of a handler.
pub fn push_handler(out: &mut Vec<u8>, handler: Handler) -> Result<(), NoMemory>
    ensures ok { OnOk result (out.new.items ≡ out.old.items ++ handler_word handler) }
    ensures err { OnErr result (out.new.items ≡ out.old.items) }
{
    push_word(out, handler.word())
}

/// Appends the word of a field.
pub fn push_field(out: &mut Vec<u8>, field: &Field) -> Result<(), NoMemory>
    ensures ok { OnOk result (out.new.items ≡ out.old.items ++ field_word field.now) }
    ensures err { OnErr result (out.new.items ≡ out.old.items) }
{
    match field {
        Field::Register(number) => push_register(out, *number),
        Field::Operand(operand) => push_operand(out, operand),
        Field::Integer(number) => push_int(out, *number),
        Field::Number(number) => push_number(out, u64::from(*number)),
        Field::Text(text) => push_quoted(out, text.as_str().as_bytes()),
        Field::Identifier(key) => push_key(out, key),
        Field::Mode(mode) => push_mode(out, *mode),
        Field::HandlerWord(handler) => push_handler(out, *handler),
    }
}
