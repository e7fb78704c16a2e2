//! What is measured.

ghost use Rattle.std.specs.Prelude.{◌≡◌, ◌<◌, ◌+◌, ◌^◌, ◌⊎◌, [], length, true, false, Ok, None, IfOk, IfSome};
ghost use Rattle.np_message.specs.Encoding.{encoding};
ghost use Rattle.np_wire_speed.specs.Work.{BeginsWithMessage, HasFront, IsOneMessage};

use np_values::NoMemory;
use np_wire::{
    Feed, FeedError, Message, encode, encoded_is_read_again, messages_fit,
    no_encoding_begins_another,
};
use std::alloc::Global;

/// Encodes a message that many times into the same room.
fn encode_times(alloc: Global, message: &Message, times: u32) -> Result<Vec<u8>, NoMemory>
    ensures last { IfOk result (λ bytes. 0 < times → bytes.items ≡ encoding message.now) }
{
    let mut out = Vec::new(alloc);
    for _ in 0..times {
        out.clear();
        encode(message, &mut out)?;
    }
    Ok(out)
}

/// The same; whether the bytes are those of the message, where it is encoded at all.
fn encodes_as(alloc: Global, message: &Message, bytes: &[u8], times: u32) -> Result<bool, NoMemory>
    ensures yes { IfOk result (λ yes. yes ≡ true → 0 < times → bytes.now ≡ encoding message.now) }
    ensures no { IfOk result (λ yes. yes ≡ false → bytes.now ≡ encoding message.now → ⊥) }
{
    let out = encode_times(alloc, message, times)?;
    if times == 0 {
        return Ok(true);
    }
    Ok(out.as_slice() == bytes)
}

/// The message at the front of the bytes; `None` where none is there.
#[tactic(auto, using(crate::proofs::OneMessage::is_not_partial, crate::proofs::OneMessage::is_not_bad))]
fn front_message(alloc: Global, bytes: &[u8]) -> Result<Option<Message>, NoMemory>
    ensures some { IfOk result (λ next. IfSome next (λ m. HasFront m bytes.now)) }
    ensures none { result ≡ Ok None → IsOneMessage bytes.now → ⊥ }
{
    encoded_is_read_again();
    let mut feed = Feed::new(alloc);
    feed.push(bytes)?;
    match feed.next() {
        Ok(next) => Ok(next),
        Err(FeedError::Wire(_)) => Ok(None),
        Err(FeedError::NoMemory) => Err(NoMemory),
    }
}

/// Decodes the message once, and encodes it that many times into the same room. The status is 3 where the bytes aren't
/// those of one message, but for bytes after a message that is encoded no time.
#[tactic(auto, using(crate::proofs::OneMessage::is_that_message))]
pub fn encode_again(alloc: Global, bytes: &[u8], times: u32) -> Result<u8, NoMemory>
    ensures status { IfOk result (λ status. (status ≡ 0) ⊎ (status ≡ 3)) }
    ensures message { IfOk result (λ status. status ≡ 0 → BeginsWithMessage bytes.now) }
    ensures whole { IfOk result (λ status. status ≡ 0 → 0 < times → IsOneMessage bytes.now) }
    ensures refused { IfOk result (λ status. status ≡ 3 → IsOneMessage bytes.now → ⊥) }
{
    no_encoding_begins_another();
    let Some(message) = front_message(alloc, bytes)? else {
        return Ok(3);
    };
    if encodes_as(alloc, &message, bytes, times)? {
        Ok(0)
    } else {
        Ok(3)
    }
}

/// Gives the bytes to the feed, and takes a message off; whether one was there.
#[tactic(auto, using(crate::proofs::OneMessage::is_not_partial_behind, crate::proofs::OneMessage::is_not_bad_behind, crate::proofs::OneMessage::nothing_is_left))]
fn take_one(feed: &mut Feed, bytes: &[u8]) -> Result<bool, NoMemory>
    requires room { feed.old.consumed + length feed.old.left + length bytes.now < 2 ^ 64 }
    ensures found { IfOk result (λ taken. taken ≡ true → feed.old.left ≡ [] → BeginsWithMessage bytes.now) }
    ensures left { IfOk result (λ taken. taken ≡ true → feed.old.left ≡ [] → IsOneMessage bytes.now → feed.new.left ≡ []) }
    ensures total { IfOk result (λ taken. taken ≡ true → feed.new.consumed + length feed.new.left ≡ feed.old.consumed + length feed.old.left + length bytes.now) }
    ensures none { IfOk result (λ taken. taken ≡ false → feed.old.left ≡ [] → IsOneMessage bytes.now → ⊥) }
{
    encoded_is_read_again();
    feed.push(bytes)?;
    match feed.next() {
        Ok(Some(_)) => Ok(true),
        Ok(None) => Ok(false),
        Err(FeedError::Wire(_)) => Ok(false),
        Err(FeedError::NoMemory) => Err(NoMemory),
    }
}

/// Gives the bytes that many times to one feed, and takes a message off each time. The status is 3 where none is there
/// at one of these times, and of more than 65,536 bytes.
#[tactic(auto, using(crate::proofs::OneMessage::is_short))]
pub fn decode(alloc: Global, bytes: &[u8], times: u32) -> Result<u8, NoMemory>
    ensures status { IfOk result (λ status. (status ≡ 0) ⊎ (status ≡ 3)) }
    ensures message { IfOk result (λ status. status ≡ 0 → 0 < times → BeginsWithMessage bytes.now) }
    ensures refused { IfOk result (λ status. status ≡ 3 → IsOneMessage bytes.now → ⊥) }
{
    messages_fit();
    if bytes.len() > 65536 {
        return Ok(3);
    }
    let mut feed = Feed::new(alloc);
    for _ in 0..times {
        if !take_one(&mut feed, bytes)? {
            return Ok(3);
        }
    }
    Ok(0)
}

/// Copies the bytes that many times into the same room.
pub fn copy(alloc: Global, bytes: &[u8], times: u32) -> Result<u8, NoMemory>
    ensures status { IfOk result (λ status. status ≡ 0) }
{
    let mut out = Vec::new(alloc);
    for _ in 0..times {
        out.clear();
        out.extend_from_slice(bytes)?;
    }
    Ok(0)
}
