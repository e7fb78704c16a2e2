//! Readers of plain items, from the left.

ghost use Rattle.std.specs.Prelude.{◌≡◌};
ghost use Rattle.np_values.specs.Text.{is_text};
ghost use Rattle.np_message.specs.Items.{KindItem, DepthItem, ByteItem, CountItem, NumberItem, IntItem, TextItem, BytesItem, CodeItem, ReasonItem, is_kind};
ghost use Rattle.np_message.specs.Decoding.{read_item, depth_of};
ghost use Rattle.np_wire_decode.specs.Reading.{Gives, WantsMemoryOnly, BeginsCounted, Copies};

use crate::unread::{Unread, no_item};
use np_message::Depth;
use np_values::{Bytes, NpError, NpReason, Text, TextError};
use std::alloc::Global;

/// Reads a byte within these bounds.
pub fn byte(low: u8, high: u8, bytes: &[u8]) -> Result<(u8, &[u8]), Unread>
    ensures exact { Gives (λ x. (x.0, x.1.now)) result (read_item (ByteItem low high) bytes.now) }
    ensures sure { WantsMemoryOnly ⊥ result }
{
    match bytes {
        [b, rest @ ..] if low <= *b && *b <= high => Ok((*b, rest)),
        _ => Err(no_item(bytes)),
    }
}

/// Whether it is the number of a kind.
fn is_known(kind: u8) -> bool
    ensures { result ≡ is_kind kind }
{
    (1 <= kind && kind <= 12) || (32 <= kind && kind <= 35) || (64 <= kind && kind <= 71)
}

/// Reads the number of a kind.
pub fn kind(bytes: &[u8]) -> Result<(u8, &[u8]), Unread>
    ensures exact { Gives (λ x. (x.0, x.1.now)) result (read_item KindItem bytes.now) }
    ensures sure { WantsMemoryOnly ⊥ result }
{
    match bytes {
        [b, rest @ ..] if is_known(*b) => Ok((*b, rest)),
        _ => Err(no_item(bytes)),
    }
}

fn depth_of_byte(b: u8) -> Option<Depth>
    ensures { result ≡ depth_of b }
{
    if 1 <= b && b <= 64 {
        Some(Depth {
            level: b,
            task: false,
        })
    } else if 129 <= b && b <= 192 {
        Some(Depth {
            level: b - 128,
            task: true,
        })
    } else {
        None
    }
}

/// Reads a byte of depth.
pub fn depth(bytes: &[u8]) -> Result<(Depth, &[u8]), Unread>
    ensures exact { Gives (λ x. (x.0, x.1.now)) result (read_item DepthItem bytes.now) }
    ensures sure { WantsMemoryOnly ⊥ result }
{
    match bytes {
        [b, rest @ ..] => match depth_of_byte(*b) {
            Some(depth) => Ok((depth, rest)),
            None => Err(no_item(bytes)),
        },
        _ => Err(no_item(bytes)),
    }
}

/// Two bytes, at most this.
#[tactic(auto, unfolding(np_message::specs::Decoding::read_count))]
pub fn count(most: u16, bytes: &[u8]) -> Result<(u16, &[u8]), Unread>
    ensures exact { Gives (λ x. (x.0, x.1.now)) result (read_item (CountItem most) bytes.now) }
    ensures sure { WantsMemoryOnly ⊥ result }
{
    if bytes.len() < 2 {
        return Err(no_item(bytes));
    }
    let (number, rest) = bytes.split_at(2);
    let number = u16::from_be_bytes([number[0], number[1]]);
    if number > most {
        return Err(no_item(bytes));
    }
    Ok((number, rest))
}

/// Four bytes, at least this.
#[tactic(auto, unfolding(np_message::specs::Decoding::read_number))]
pub fn number(least: u32, bytes: &[u8]) -> Result<(u32, &[u8]), Unread>
    ensures exact { Gives (λ x. (x.0, x.1.now)) result (read_item (NumberItem least) bytes.now) }
    ensures sure { WantsMemoryOnly ⊥ result }
{
    if bytes.len() < 4 {
        return Err(no_item(bytes));
    }
    let (number, rest) = bytes.split_at(4);
    let number = u32::from_be_bytes([number[0], number[1], number[2], number[3]]);
    if number < least {
        return Err(no_item(bytes));
    }
    Ok((number, rest))
}

/// Four bytes of two's complement.
#[tactic(auto, unfolding(np_message::specs::Decoding::read_int))]
pub fn int(bytes: &[u8]) -> Result<(i32, &[u8]), Unread>
    ensures exact { Gives (λ x. (x.0, x.1.now)) result (read_item IntItem bytes.now) }
    ensures sure { WantsMemoryOnly ⊥ result }
{
    if bytes.len() < 4 {
        return Err(no_item(bytes));
    }
    let (number, rest) = bytes.split_at(4);
    let number = i32::from_be_bytes([number[0], number[1], number[2], number[3]]);
    Ok((number, rest))
}

/// A text.
#[tactic(auto, unfolding(np_message::specs::Decoding::read_counted, np_values::specs::Text::is_text))]
pub fn text(alloc: Global, bytes: &[u8]) -> Result<(Text, &[u8]), Unread>
    ensures exact { Gives (λ x. (x.0, x.1.now)) result (read_item TextItem bytes.now) }
    // Bytes that aren't a text take no memory.
    ensures memory { WantsMemoryOnly (BeginsCounted is_text bytes.now) result }
{
    if bytes.len() < 2 {
        return Err(no_item(bytes));
    }
    let (length, rest) = bytes.split_at(2);
    let length = u16::from_be_bytes([length[0], length[1]]) as usize;
    if rest.len() < length {
        return Err(no_item(bytes));
    }
    let (text, rest) = rest.split_at(length);
    match Text::new(alloc, text) {
        Ok(text) => Ok((text, rest)),
        Err(TextError::NoMemory) => Err(Unread::NoMemory),
        Err(TextError::TooLong | TextError::NotUtf8) => Err(no_item(bytes)),
    }
}

// A list of these bytes.
fn copied(alloc: Global, bytes: &[u8]) -> Result<Bytes, Unread>
    ensures value { Copies result bytes.now }
{
    let mut copy = Bytes::new(alloc);
    for b in bytes {
        copy.push(*b)?;
    }
    Ok(copy)
}

/// The bytes of a Write.
#[tactic(auto, unfolding(np_message::specs::Decoding::read_counted))]
pub fn chunk(alloc: Global, bytes: &[u8]) -> Result<(Bytes, &[u8]), Unread>
    ensures exact { Gives (λ x. (x.0, x.1.now)) result (read_item BytesItem bytes.now) }
{
    if bytes.len() < 2 {
        return Err(no_item(bytes));
    }
    let (length, rest) = bytes.split_at(2);
    let length = u16::from_be_bytes([length[0], length[1]]) as usize;
    if rest.len() < length {
        return Err(no_item(bytes));
    }
    let (chunk, rest) = rest.split_at(length);
    if length < 1 || length > 8192 {
        return Err(no_item(bytes));
    }
    Ok((copied(alloc, chunk)?, rest))
}

/// Reads the number of an error.
pub fn code(bytes: &[u8]) -> Result<(NpError, &[u8]), Unread>
    ensures exact { Gives (λ x. (x.0, x.1.now)) result (read_item CodeItem bytes.now) }
    ensures sure { WantsMemoryOnly ⊥ result }
{
    match bytes {
        [b, rest @ ..] => match NpError::from_code(u16::from(*b)) {
            Some(error) => Ok((error, rest)),
            None => Err(no_item(bytes)),
        },
        _ => Err(no_item(bytes)),
    }
}

/// Reads the number of a reason.
pub fn reason(bytes: &[u8]) -> Result<(NpReason, &[u8]), Unread>
    ensures exact { Gives (λ x. (x.0, x.1.now)) result (read_item ReasonItem bytes.now) }
    ensures sure { WantsMemoryOnly ⊥ result }
{
    match bytes {
        [b, rest @ ..] => match NpReason::from_code(u16::from(*b)) {
            Some(reason) => Ok((reason, rest)),
            None => Err(no_item(bytes)),
        },
        _ => Err(no_item(bytes)),
    }
}
