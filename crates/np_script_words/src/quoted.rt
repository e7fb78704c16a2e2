//! Quoted texts.
ghost use Rattle.std.specs.Prelude.{◌≡◌, true};
ghost use Rattle.np_script_words.specs.Quoted.{quoted_step, unquoted_from, is_hex as is_hex_digit, hex_value as value_of_hex, Unquotes};
ghost use Rattle.np_script_words.specs.Reads.{ReadsBytes};

use crate::FieldError;
use crate::line::has_utf8;
use std::alloc::Global;

/// Where a reader stands inside a quoted text.
#[derive(Clone, Copy)]
enum QuotedState {
    Plain,
    Escape,
    HexHigh,
    /// After the first digit of `\xHH`, which is this.
    HexLow(u8),
}

/// What the next byte of a quoted text does.
#[derive(Clone, Copy)]
enum QuotedStep {
    /// It is the closing quote.
    Closed,
    /// It belongs to an escape that continues.
    Moved(QuotedState),
    /// It ends an item that says this byte.
    Byte(u8),
    /// No text continues so.
    Failed,
}

fn is_hex(b: u8) -> bool
    ensures value { result ≡ is_hex_digit b }
{
    (b >= b'0' && b <= b'9') || (b >= b'a' && b <= b'f')
}

fn hex_value(b: u8) -> u8
    requires digit { is_hex_digit b ≡ true }
    ensures value { result ≡ value_of_hex b }
{
    if b <= b'9' { b - b'0' } else { b - b'a' + 10 }
}

/// The step at the second digit of `\xHH`, after the first.
fn low_digit(high: u8, b: u8) -> QuotedStep
    ensures value { result ≡ quoted_step (QuotedState.HexLow high) b }
{
    if is_hex(b) && (high < 2 || (high == 7 && hex_value(b) == 15)) {
        QuotedStep::Byte(16 * high + hex_value(b))
    } else {
        QuotedStep::Failed
    }
}

/// The step at a byte that begins an item.
fn plain_byte(b: u8) -> QuotedStep
    ensures value { result ≡ quoted_step QuotedState.Plain b }
{
    if b == b'"' {
        QuotedStep::Closed
    } else if b == b'\\' {
        QuotedStep::Moved(QuotedState::Escape)
    } else if b >= 32 && b != 127 {
        QuotedStep::Byte(b)
    } else {
        QuotedStep::Failed
    }
}

fn take_byte(state: QuotedState, b: u8) -> QuotedStep
    ensures value { result ≡ quoted_step state b }
{
    match state {
        QuotedState::Plain => plain_byte(b),
        QuotedState::Escape => {
            if b == b'"' || b == b'\\' {
                QuotedStep::Byte(b)
            } else if b == b'x' {
                QuotedStep::Moved(QuotedState::HexHigh)
            } else {
                QuotedStep::Failed
            }
        }
        QuotedState::HexHigh => {
            if b == b'0' || b == b'1' || b == b'7' {
                QuotedStep::Moved(QuotedState::HexLow(b - b'0'))
            } else {
                QuotedStep::Failed
            }
        }
        QuotedState::HexLow(high) => low_digit(high, b),
    }
}

/// What a quoted text says, from after its opening quote to the end of the word. A text of more than
/// `limit` bytes is read to its end too, but only this many bytes of it are kept.
fn unquote(alloc: Global, limit: usize, word: &[u8]) -> Result<Vec<u8>, FieldError>
    ensures value { Unquotes limit (unquoted_from QuotedState.Plain word.now) result }
{
    let mut text = Vec::new(alloc);
    let mut passed = false;
    let mut state = QuotedState::Plain;
    for (i, b) in word.iter().enumerate() {
        match take_byte(state, *b) {
            QuotedStep::Closed => {
                if i + 1 < word.len() {
                    return Err(FieldError::Form);
                }
                if passed {
                    return Err(FieldError::Limit);
                }
                return Ok(text);
            }
            QuotedStep::Moved(next) => state = next,
            QuotedStep::Byte(byte) => {
                if text.len() < limit {
                    text.push(byte)?;
                } else {
                    passed = true;
                }
                state = QuotedState::Plain;
            }
            QuotedStep::Failed => return Err(FieldError::Form),
        }
    }
    Err(FieldError::Form)
}

/// The bytes that a word says as a quoted text, of which there may be this many. They are UTF-8.
pub fn read_quoted(alloc: Global, limit: usize, word: &[u8]) -> Result<Vec<u8>, FieldError>
    ensures value { ReadsBytes limit word.now result }
{
    if !has_utf8(word) {
        return Err(FieldError::Form);
    }
    match word {
        [b'"', text @ ..] => unquote(alloc, limit, text),
        _ => Err(FieldError::Form),
    }
}
