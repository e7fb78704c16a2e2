//! Texts and identifiers.
ghost use Rattle.std.specs.Prelude.{◌≡◌, ◌≢◌, true};
ghost use Rattle.np_script_grammar.specs.Fields.{key_word, is_key};
ghost use Rattle.np_script_words.specs.Reads.{Reads, SaysText, IsWithin, SaysKey, IsShortKey};

use crate::FieldError;
use crate::number::read_int;
use crate::quoted::read_quoted;
use np_idents::{IdKey, IdText, IdentError};
use np_values::{Text, TextError};
use std::alloc::Global;

/// The text that a word says.
pub fn read_text(alloc: Global, word: &[u8]) -> Result<Text, FieldError>
    ensures value { Reads (SaysText word.now) (IsWithin 2048) result }
{
    let bytes = read_quoted(alloc, 2048, word)?;
    match Text::new(alloc, &bytes) {
        Ok(text) => Ok(text),
        Err(TextError::TooLong) => Err(FieldError::Limit),
        Err(TextError::NotUtf8) => Err(FieldError::Form),
        Err(TextError::NoMemory) => Err(FieldError::NoMemory),
    }
}

/// The text of an identifier that a word says.
fn read_id_text(alloc: Global, word: &[u8]) -> Result<IdText, FieldError>
    ensures value { Reads (SaysText word.now) (IsWithin 256) result }
{
    let bytes = read_quoted(alloc, 256, word)?;
    let Ok(text) = str::from_utf8(&bytes) else {
        return Err(FieldError::Form);
    };
    match IdText::new(alloc, text) {
        Ok(text) => Ok(text),
        Err(IdentError::TooLong) => Err(FieldError::Limit),
        Err(IdentError::NoMemory) => Err(FieldError::NoMemory),
    }
}

/// The identifier that a word spells.
pub fn read_key(alloc: Global, word: &[u8]) -> Result<IdKey, FieldError>
    ensures value { Reads (SaysKey word.now) IsShortKey result }
{
    if let Some(number) = read_int(word) {
        return Ok(IdKey::Int(number));
    }
    Ok(IdKey::Str(read_id_text(alloc, word)?))
}
