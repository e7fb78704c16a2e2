//! The decoder of a stream: bytes in, whole messages out.

ghost use Rattle.std.specs.Prelude.{◌≡◌, ◌+◌, ◌-◌, ◌<◌, ◌≤◌, ◌^◌, ◌++◌, [], true, drop, length, OnOk, OnErr, IfOk, IfSome};
ghost use Rattle.np_wire_decode.specs.Reading.{needs_memory};
ghost use Rattle.np_wire.specs.Feed.{Fed, NextGives, RefusesFirstFault, FrontGives, SizedGives, IsEncoded, IsWholeBody, HasWholeBody, WantsMemoryOnly, RefusedAs};

use crate::FeedError;
use np_message::{Message, WireError, WireKind};
use np_values::NoMemory;
use np_wire_decode::{Broken, decode_body};
use np_wire_laws::{fault_is_first, read_is_encoded};
use std::alloc::Global;
use std::marker::Model;

/// The bytes of messages, in whatever chunks they come: those that `push` was given, of which `next`
/// takes whole messages off the front. It owns the bytes and keeps its allocator. (This project's own.)
#[derive(Drop)]
pub struct Feed {
    alloc: Global,
    bytes: Vec<u8>,
    start: usize,
    consumed: u64,
}

impl Model for Feed {
    ghost use Rattle.std.specs.Prelude.{◌+◌, ◌-◌, ◌<◌, ◌≤◌, ◌^◌, drop, length};
    ghost use Rattle.np_wire.specs.Feed.{Fed};

    ghost Value = { Fed };

    ghost view = { λ f. record { consumed = f.consumed; left = drop f.start f.bytes.items } };

    ghost invariant = { λ f. (f.start ≤ length f.bytes.items) × (f.consumed + (length f.bytes.items - f.start) < 2 ^ 64) };
}

impl Feed {
    /// A feed without bytes. It allocates with the first push.
    pub fn new(alloc: Global) -> Feed
        ensures value { result ≡ record { consumed = 0; left = [] } }
    {
        Feed {
            alloc,
            bytes: Vec::new(alloc),
            start: 0,
            consumed: 0,
        }
    }

    /// Takes further bytes, which are copied. No more than 2^64 - 1 are taken in all.
    pub fn push(&mut self, bytes: &[u8]) -> Result<(), NoMemory>
        requires room { self.old.consumed + length self.old.left + length bytes.now < 2 ^ 64 }
        ensures ok { OnOk result (self.new ≡ record self.old { left = self.old.left ++ bytes.now }) }
        ensures err { OnErr result (self.new ≡ self.old) }
    {
        self.compact();
        self.bytes.extend_from_slice(bytes)?;
        Ok(())
    }

    /// The next message, or `None` while more bytes have to come. Bytes that break the format stay where
    /// they are, so a later call gives the same error, or runs out of memory. Only a body that is there as a whole takes memory,
    /// of a message with texts, bytes, values, lists or releases.
    pub fn next(&mut self) -> Result<Option<Message>, FeedError>
        ensures exact { NextGives self.old self.new result }
        ensures found { IfOk result (λ next. IfSome next (λ m. IsEncoded m self.old.left self.new.left)) }
        ensures fault { RefusesFirstFault self.old.consumed self.old.left result }
        ensures memory { WantsMemoryOnly (needs_memory (drop 4 self.old.left) ≡ true) result }
        ensures memory_whole { WantsMemoryOnly (HasWholeBody self.old.left) result }
    {
        match front(self.alloc, self.consumed, &self.bytes[self.start..])? {
            None => Ok(None),
            Some((message, size)) => {
                self.start += size;
                self.consumed += size as u64;
                Ok(Some(message))
            }
        }
    }

    /// The number of bytes of all messages that `next` has given.
    pub fn consumed(&self) -> u64
        ensures value { result ≡ self.now.consumed }
    {
        self.consumed
    }

    // Drops the consumed bytes once they are no fewer than the others, so that each byte that is moved
    // is paid for by one that is dropped.
    fn compact(&mut self)
        ensures { self.new ≡ self.old }
    {
        if self.start >= self.bytes.len() - self.start {
            self.bytes.drain(..self.start);
            self.start = 0;
        }
    }
}

// The message at the front, and how many bytes it has.
fn front(alloc: Global, at: u64, bytes: &[u8]) -> Result<Option<(Message, usize)>, FeedError>
    requires { at + length bytes.now < 2 ^ 64 }
    ensures front { FrontGives at bytes.now result }
    ensures memory { WantsMemoryOnly (needs_memory (drop 4 bytes.now) ≡ true) result }
    ensures memory_whole { WantsMemoryOnly (HasWholeBody bytes.now) result }
    ensures size { IfOk result (λ next. IfSome next (λ m. m.1 ≤ length bytes.now)) }
    ensures found { IfOk result (λ next. IfSome next (λ m. IsEncoded m.0 bytes.now (drop m.1 bytes.now))) }
    ensures fault { RefusesFirstFault at bytes.now result }
{
    read_is_encoded();
    fault_is_first();
    if bytes.len() < 4 {
        return Ok(None);
    }
    let (size, rest) = bytes.split_at(4);
    let size = u32::from_be_bytes([size[0], size[1], size[2], size[3]]);
    sized(alloc, at, size, rest)
}

// Why a body is refused, of a message that begins at this place and has this length.
fn refused(at: u64, length: u64, broken: Broken) -> FeedError
    requires { at + 4 + length < 2 ^ 64 }
    ensures { RefusedAs at length broken result }
{
    let (kind, left) = match broken {
        Broken::Item(left) => (WireKind::Item, left),
        Broken::Rest(left) => (WireKind::Rest, left),
        Broken::NoMemory => return FeedError::NoMemory,
    };
    FeedError::Wire(WireError {
        at: (at + 4 + length).saturating_sub(left as u64),
        kind,
        first: at,
        second: length,
    })
}

// As `front`, of the bytes after the length.
fn sized(
    alloc: Global,
    at: u64,
    size: u32,
    rest: &[u8],
) -> Result<Option<(Message, usize)>, FeedError>
    requires { at + 4 + length rest.now < 2 ^ 64 }
    ensures front { SizedGives at size rest.now result }
    ensures memory { WantsMemoryOnly (needs_memory rest.now ≡ true) result }
    ensures memory_whole { WantsMemoryOnly (IsWholeBody size rest.now) result }
    ensures size { IfOk result (λ next. IfSome next (λ m. m.1 ≤ 4 + length rest.now)) }
{
    if size < 4 || size > 32768 {
        return Err(FeedError::Wire(WireError {
            at,
            kind: WireKind::Length,
            first: u64::from(size),
            second: 32768,
        }));
    }
    let size = size as usize;
    if rest.len() < size {
        return Ok(None);
    }
    match decode_body(alloc, &rest[..size]) {
        Ok(message) => Ok(Some((message, 4 + size))),
        Err(broken) => Err(refused(at, size as u64, broken)),
    }
}
