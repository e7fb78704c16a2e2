//! Constants and operands.
ghost use Rattle.std.specs.Prelude.{◌≡◌, ◌≢◌, ◌++◌, ℕ, List, length, codes, true, false, IfSome, None};
ghost use Rattle.std.specs.List.{list_all};
ghost use Rattle.np_script_grammar.specs.Fields.{hexadecimal};
ghost use Rattle.np_script_words.specs.Reads.{Reads, SaysValue, IsShortValue, IsTextValue, SaysOperand, IsShortOperand, is_byte};

use crate::FieldError;
use crate::number::{read_int, read_register};
use crate::text::read_text;
use hex::FromHex;
use np_script_grammar::Operand;
use np_values::Value;
use std::alloc::Global;

/// The eight bytes that digits spell, if they do; else any.
fn decoded(digits: &[u8]) -> Option<[u8; 8]>
    ensures value { (bytes : List ℕ) → length bytes ≡ 8 → list_all is_byte bytes ≡ true
        → digits.now ≡ hexadecimal bytes → result ≡ Some bytes }
{
    <[u8; 8]>::from_hex(digits).ok()
}

/// Whether digits spell these bytes.
fn spells(digits: &[u8], bytes: &[u8]) -> bool
    requires eight { length bytes.now ≡ 8 }
    ensures yes { result ≡ true → digits.now ≡ hexadecimal bytes.now }
    ensures no { result ≡ false → digits.now ≢ hexadecimal bytes.now }
    ensures bytes { list_all is_byte bytes.now ≡ true }
{
    let mut again = [0; 16];
    match hex::encode_to_slice(bytes, &mut again) {
        Ok(()) => again.as_slice() == digits,
        Err(_) => false,
    }
}

/// The bytes of a double that a word spells.
fn read_double(word: &[u8]) -> Option<[u8; 8]>
    ensures some { IfSome result (λ bytes. word.now ≡ codes "d:" ++ hexadecimal bytes) }
    ensures bytes { IfSome result (λ bytes. (length bytes ≡ 8) × (list_all is_byte bytes ≡ true)) }
    ensures none { result ≡ None → (bytes : List ℕ) → length bytes ≡ 8 → list_all is_byte bytes ≡ true
        → word.now ≢ codes "d:" ++ hexadecimal bytes }
{
    let [b'd', b':', digits @ ..] = word else {
        return None;
    };
    let bytes = decoded(digits)?;
    if spells(digits, bytes.as_slice()) {
        Some(bytes)
    } else {
        None
    }
}

/// Whether a word is this one.
pub fn is_word(word: &[u8], name: &str) -> bool
    ensures yes { result ≡ true → word.now ≡ name.now }
    ensures no { result ≡ false → word.now ≢ name.now }
{
    word == name.as_bytes()
}

/// The constant other than a text that a word spells.
fn read_short_value(word: &[u8]) -> Option<Value>
    ensures some { IfSome result (SaysValue word.now) }
    ensures short { IfSome result IsShortValue }
    ensures none { result ≡ None → (value : Value) → SaysValue word.now value → IsTextValue value }
{
    if is_word(word, "void") {
        return Some(Value::Void);
    }
    if is_word(word, "null") {
        return Some(Value::Null);
    }
    if is_word(word, "true") {
        return Some(Value::Bool(true));
    }
    if is_word(word, "false") {
        return Some(Value::Bool(false));
    }
    if let Some(number) = read_int(word) {
        return Some(Value::Int(number));
    }
    match read_double(word) {
        Some(bytes) => Some(Value::Double(bytes)),
        None => None,
    }
}

/// The constant that a word spells.
fn read_value(alloc: Global, word: &[u8]) -> Result<Value, FieldError>
    ensures value { Reads (SaysValue word.now) IsShortValue result }
{
    if let Some(value) = read_short_value(word) {
        return Ok(value);
    }
    Ok(Value::Text(read_text(alloc, word)?))
}

/// The operand that a word spells.
pub fn read_operand(alloc: Global, word: &[u8]) -> Result<Operand, FieldError>
    ensures value { Reads (SaysOperand word.now) IsShortOperand result }
{
    if let Some(number) = read_register(word) {
        return Ok(Operand::Reg(number));
    }
    Ok(Operand::Const(read_value(alloc, word)?))
}
