//! Readers of items that hold others: identifiers, values and releases.

ghost use Rattle.std.specs.Prelude.{◌≡◌, IfOk, OnErr, true};
ghost use Rattle.np_message.specs.Items.{IdentItem, ValueItem};
ghost use Rattle.np_message.specs.Decoding.{at_start, read_item, read_counted, read_key, read_name, read_double, read_typed, read_entry, read_release};
ghost use Rattle.np_idents.specs.IdText.{is_id_text};
ghost use Rattle.np_proxy_release.specs.Release.{is_behind};
ghost use Rattle.np_wire_decode.specs.Reading.{Gives, WantsMemoryOnly, BeginsCounted, MayBe};

use crate::items::{byte, int, number, text};
use crate::unread::{Unread, no_item};
use np_idents::{IdKey, IdText, IdentError};
use np_proxy_release::Release;
use np_values::{Name, NoMemory, Side, Value};
use std::alloc::Global;

// The text of an identifier, or none where the bytes are none.
#[tactic(auto, using(crate::proofs::IdTexts::is_broken, crate::proofs::IdTexts::is_long, crate::proofs::IdTexts::is_short))]
fn id_text_of(alloc: Global, bytes: &[u8]) -> Result<Option<IdText>, NoMemory>
    ensures value { IfOk result (λ text. MayBe is_id_text bytes.now text) }
    // Bytes that are no identifier's text take no memory.
    ensures memory { OnErr result (is_id_text bytes.now ≡ true) }
{
    match str::from_utf8(bytes) {
        Ok(text) => match IdText::new(alloc, text) {
            Ok(text) => Ok(Some(text)),
            Err(IdentError::TooLong) => Ok(None),
            Err(IdentError::NoMemory) => Err(NoMemory),
        },
        Err(_) => Ok(None),
    }
}

// The text of an identifier, with its length.
#[tactic(auto, unfolding(np_message::specs::Decoding::read_counted))]
fn id_text(alloc: Global, bytes: &[u8]) -> Result<(IdText, &[u8]), Unread>
    ensures exact { Gives (λ x. (x.0, x.1.now)) result (read_counted is_id_text bytes.now) }
    ensures memory { WantsMemoryOnly (BeginsCounted is_id_text bytes.now) result }
{
    if bytes.len() < 2 {
        return Err(no_item(bytes));
    }
    let (length, rest) = bytes.split_at(2);
    let length = u16::from_be_bytes([length[0], length[1]]) as usize;
    if rest.len() < length {
        return Err(no_item(bytes));
    }
    let (text, rest) = rest.split_at(length);
    match id_text_of(alloc, text)? {
        Some(text) => Ok((text, rest)),
        None => Err(no_item(bytes)),
    }
}

// An identifier by the byte before it.
#[tactic(auto, unfolding(np_message::specs::Decoding::read_key))]
fn key(alloc: Global, tag: u8, bytes: &[u8]) -> Result<(IdKey, &[u8]), Unread>
    ensures exact { Gives (λ x. (x.0, x.1.now)) result (read_key tag bytes.now) }
{
    match tag {
        0 => {
            let (text, rest) = id_text(alloc, bytes)?;
            Ok((IdKey::Str(text), rest))
        }
        1 => {
            let (number, rest) = int(bytes)?;
            Ok((IdKey::Int(number), rest))
        }
        _ => Err(no_item(bytes)),
    }
}

/// Reads an identifier.
pub fn ident(alloc: Global, bytes: &[u8]) -> Result<(IdKey, &[u8]), Unread>
    ensures exact { Gives (λ x. (x.0, x.1.now)) result (read_item IdentItem bytes.now) }
{
    match bytes {
        [tag, rest @ ..] => match key(alloc, *tag, rest) {
            Err(Unread::Fault(_)) => Err(no_item(bytes)),
            read => read,
        },
        _ => Err(no_item(bytes)),
    }
}

// Side, instance and serial.
#[tactic(auto, unfolding(np_message::specs::Decoding::read_name))]
fn name(bytes: &[u8]) -> Result<(Name, &[u8]), Unread>
    ensures exact { Gives (λ x. (x.0, x.1.now)) result (read_name bytes.now) }
{
    let (side, rest) = byte(0, 1, bytes)?;
    let (instance, rest) = byte(1, 255, rest)?;
    let (serial, rest) = number(1, rest)?;
    let side = if side == 0 { Side::Page } else { Side::Plug };
    Ok((
        Name {
            side,
            instance,
            serial,
        },
        rest,
    ))
}

// Eight bytes.
#[tactic(auto, unfolding(np_message::specs::Decoding::read_double))]
fn double(bytes: &[u8]) -> Result<([u8; 8], &[u8]), Unread>
    ensures exact { Gives (λ x. (x.0, x.1.now)) result (read_double bytes.now) }
{
    match bytes {
        [a, b, c, d, e, f, g, h, rest @ ..] => Ok(([*a, *b, *c, *d, *e, *f, *g, *h], rest)),
        _ => Err(no_item(bytes)),
    }
}

// What a value holds, by the byte of its type.
#[tactic(auto, unfolding(np_message::specs::Decoding::read_typed))]
fn typed(alloc: Global, tag: u8, bytes: &[u8]) -> Result<(Value, &[u8]), Unread>
    ensures exact { Gives (λ x. (x.0, x.1.now)) result (read_typed tag bytes.now) }
{
    match tag {
        0 => Ok((Value::Void, bytes)),
        1 => Ok((Value::Null, bytes)),
        2 => {
            let (truth, rest) = byte(0, 1, bytes)?;
            Ok((Value::Bool(truth == 1), rest))
        }
        3 => {
            let (number, rest) = int(bytes)?;
            Ok((Value::Int(number), rest))
        }
        4 => {
            let (double, rest) = double(bytes)?;
            Ok((Value::Double(double), rest))
        }
        5 => {
            let (text, rest) = text(alloc, bytes)?;
            Ok((Value::Text(text), rest))
        }
        6 => {
            let (name, rest) = name(bytes)?;
            Ok((Value::Object(name), rest))
        }
        _ => Err(no_item(bytes)),
    }
}

/// Reads a value.
pub fn value(alloc: Global, bytes: &[u8]) -> Result<(Value, &[u8]), Unread>
    ensures exact { Gives (λ x. (x.0, x.1.now)) result (read_item ValueItem bytes.now) }
{
    match bytes {
        [tag, rest @ ..] => match typed(alloc, *tag, rest) {
            Err(Unread::Fault(_)) => Err(no_item(bytes)),
            read => read,
        },
        _ => Err(no_item(bytes)),
    }
}

// Whether the release may stand after the one before.
fn is_next(before: Option<Release>, release: Release) -> bool
    ensures { result ≡ is_behind before release }
{
    match before {
        None => true,
        Some(before) => {
            before.instance < release.instance
                || (before.instance == release.instance && before.serial < release.serial)
        }
    }
}

// Instance, serial and times.
#[tactic(auto, unfolding(np_message::specs::Decoding::read_entry))]
fn entry(before: Option<Release>, bytes: &[u8]) -> Result<(Release, &[u8]), Unread>
    ensures exact { Gives (λ x. (x.0, x.1.now)) result (read_entry before bytes.now) }
    ensures sure { WantsMemoryOnly ⊥ result }
{
    let (instance, rest) = byte(1, 255, bytes)?;
    let (serial, rest) = number(1, rest)?;
    let (times, rest) = number(1, rest)?;
    let release = Release {
        instance,
        serial,
        times,
    };
    if !is_next(before, release) {
        return Err(no_item(bytes));
    }
    Ok((release, rest))
}

/// Reads a release that stands after the one before.
pub fn release(before: Option<Release>, bytes: &[u8]) -> Result<(Release, &[u8]), Unread>
    ensures exact { Gives (λ x. (x.0, x.1.now)) result (read_release before bytes.now) }
    ensures sure { WantsMemoryOnly ⊥ result }
{
    match entry(before, bytes) {
        Err(Unread::Fault(_)) => Err(no_item(bytes)),
        read => read,
    }
}
