//! Fields.
ghost use Rattle.std.specs.Prelude.{◌≡◌, ◌≢◌, ◌==◌, ◌||◌, ℕ, true, IfSome, None};
ghost use Rattle.np_script_grammar.specs.Fields.{is_mode, mode_word};
ghost use Rattle.np_script_words.specs.Reads.{Reads, Says, IsShort};

use crate::FieldError;
use crate::number::{read_int, read_number, read_register};
use crate::text::{read_key, read_text};
use crate::value::{is_word, read_operand};
use np_script_grammar::{Field, Item, NP_EMBED, NP_FULL};
use np_values::Handler;
use std::alloc::Global;

/// The mode of an instance that a word names.
fn read_mode(word: &[u8]) -> Option<u8>
    ensures some { IfSome result (λ mode. word.now ≡ mode_word mode) }
    ensures mode { IfSome result (λ mode. is_mode mode ≡ true) }
    ensures none { result ≡ None → (mode : ℕ) → is_mode mode ≡ true → word.now ≢ mode_word mode }
{
    if is_word(word, "embed") {
        return Some(NP_EMBED);
    }
    if is_word(word, "full") {
        return Some(NP_FULL);
    }
    None
}

/// The field that a word spells at an item's place.
pub fn read_field(alloc: Global, item: Item, word: &[u8]) -> Result<Field, FieldError>
    ensures value { Reads (Says item word.now) IsShort result }
{
    match item {
        Item::Register => match read_register(word) {
            Some(number) => Ok(Field::Register(number)),
            None => Err(FieldError::Form),
        },
        Item::Operand => Ok(Field::Operand(read_operand(alloc, word)?)),
        Item::Integer => match read_int(word) {
            Some(number) => Ok(Field::Integer(number)),
            None => Err(FieldError::Form),
        },
        Item::Number(low, high) => match read_number(low, high, word) {
            Some(number) => Ok(Field::Number(number)),
            None => Err(FieldError::Form),
        },
        Item::Text => Ok(Field::Text(read_text(alloc, word)?)),
        Item::Identifier => Ok(Field::Identifier(read_key(alloc, word)?)),
        Item::Mode => match read_mode(word) {
            Some(mode) => Ok(Field::Mode(mode)),
            None => Err(FieldError::Form),
        },
        Item::HandlerWord => match Handler::from_word(word) {
            Some(handler) => Ok(Field::HandlerWord(handler)),
            None => Err(FieldError::Form),
        },
    }
}
