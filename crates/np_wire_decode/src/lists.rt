//! Readers of lists, item after item.

ghost use Rattle.std.specs.Prelude.{◌≡◌, ◌<◌, None};
ghost use Rattle.np_message.specs.Items.{TextItem, IdentItem, ValueItem};
ghost use Rattle.np_wire_decode.specs.Reading.{Gives, WantsMemoryOnly, read_many, read_range, read_ranges, read_releases};

use crate::items::{int, number, text};
use crate::unread::Unread;
use crate::values::{ident, release, value};
use np_idents::Keys;
use np_proxy_release::Releases;
use np_values::{Range, Ranges, Texts, Values};
use std::alloc::Global;

/// Reads this many texts.
pub fn texts(alloc: Global, count: u8, bytes: &[u8]) -> Result<(Texts, &[u8]), Unread>
    ensures exact { Gives (λ x. (x.0, x.1.now)) result (read_many TextItem count bytes.now) }
{
    let mut read = Texts::new(alloc);
    let mut rest = bytes;
    for _ in 0..count {
        let (next, behind) = text(alloc, rest)?;
        read.push(next)?;
        rest = behind;
    }
    Ok((read, rest))
}

/// Reads this many identifiers.
pub fn idents(alloc: Global, count: u8, bytes: &[u8]) -> Result<(Keys, &[u8]), Unread>
    ensures exact { Gives (λ x. (x.0, x.1.now)) result (read_many IdentItem count bytes.now) }
{
    let mut read = Keys::new(alloc);
    let mut rest = bytes;
    for _ in 0..count {
        let (next, behind) = ident(alloc, rest)?;
        read.push(next)?;
        rest = behind;
    }
    Ok((read, rest))
}

/// Reads this many values.
pub fn values(alloc: Global, count: u8, bytes: &[u8]) -> Result<(Values, &[u8]), Unread>
    ensures exact { Gives (λ x. (x.0, x.1.now)) result (read_many ValueItem count bytes.now) }
{
    let mut read = Values::new(alloc);
    let mut rest = bytes;
    for _ in 0..count {
        let (next, behind) = value(alloc, rest)?;
        read.push(next)?;
        rest = behind;
    }
    Ok((read, rest))
}

// An offset and a length.
fn range(bytes: &[u8]) -> Result<(Range, &[u8]), Unread>
    ensures exact { Gives (λ x. (x.0, x.1.now)) result (read_range bytes.now) }
{
    let (offset, rest) = int(bytes)?;
    let (length, rest) = number(0, rest)?;
    Ok((Range { offset, length }, rest))
}

/// Reads this many ranges.
pub fn ranges(alloc: Global, count: u8, bytes: &[u8]) -> Result<(Ranges, &[u8]), Unread>
    ensures exact { Gives (λ x. (x.0, x.1.now)) result (read_ranges count bytes.now) }
{
    let mut read = Ranges::new(alloc);
    let mut rest = bytes;
    for _ in 0..count {
        let (next, behind) = range(rest)?;
        read.push(next)?;
        rest = behind;
    }
    Ok((read, rest))
}

/// Reads this many releases, each after the one before.
pub fn releases(alloc: Global, count: u16, bytes: &[u8]) -> Result<(Releases, &[u8]), Unread>
    ensures exact { Gives (λ x. (x.0, x.1.now)) result (read_releases None count bytes.now) }
    ensures memory { WantsMemoryOnly (0 < count) result }
{
    let mut read = Releases::new(alloc);
    let mut before = None;
    let mut rest = bytes;
    for _ in 0..count {
        let (next, behind) = release(before, rest)?;
        read.push(next)?;
        before = Some(next);
        rest = behind;
    }
    Ok((read, rest))
}
