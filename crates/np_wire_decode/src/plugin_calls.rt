//! Readers of the plug-in's calls.

ghost use Rattle.std.specs.Prelude.{◌≡◌};
ghost use Rattle.np_message.specs.Formats.{window_format, get_url_format, request_read_format, end_stream_format};
ghost use Rattle.np_message.specs.Decoding.{read};
ghost use Rattle.np_wire_decode.specs.Reading.{Gives, WantsMemoryOnly};

use crate::items::{byte, int, number, reason, text};
use crate::lists::ranges;
use crate::unread::Unread;
use np_message::Payload;
use std::alloc::Global;

/// Reads the items of NPN_GetValue of the window's object.
pub fn window(bytes: &[u8]) -> Result<(Payload, &[u8]), Unread>
    ensures exact { Gives (λ x. (x.0, x.1.now)) result (read window_format bytes.now) }
    ensures sure { WantsMemoryOnly ⊥ result }
{
    let (instance, rest) = byte(1, 255, bytes)?;
    Ok((Payload::Window { instance }, rest))
}

/// Reads the items of NPN_GetURLNotify.
pub fn get_url(alloc: Global, bytes: &[u8]) -> Result<(Payload, &[u8]), Unread>
    ensures exact { Gives (λ x. (x.0, x.1.now)) result (read get_url_format bytes.now) }
{
    let (instance, rest) = byte(1, 255, bytes)?;
    let (url, rest) = text(alloc, rest)?;
    let (word, rest) = int(rest)?;
    Ok((
        Payload::GetUrl {
            instance,
            url,
            word,
        },
        rest,
    ))
}

/// NPN_RequestRead.
#[tactic(auto, using(crate::proofs::ReadLists::ranges_read))]
pub fn request_read(alloc: Global, bytes: &[u8]) -> Result<(Payload, &[u8]), Unread>
    ensures exact { Gives (λ x. (x.0, x.1.now)) result (read request_read_format bytes.now) }
{
    let (instance, rest) = byte(1, 255, bytes)?;
    let (stream, rest) = number(1, rest)?;
    let (count, rest) = byte(1, 4, rest)?;
    let (ranges, rest) = ranges(alloc, count, rest)?;
    Ok((
        Payload::RequestRead {
            instance,
            stream,
            ranges,
        },
        rest,
    ))
}

/// Reads the items of NPN_DestroyStream.
pub fn end_stream(bytes: &[u8]) -> Result<(Payload, &[u8]), Unread>
    ensures exact { Gives (λ x. (x.0, x.1.now)) result (read end_stream_format bytes.now) }
    ensures sure { WantsMemoryOnly ⊥ result }
{
    let (instance, rest) = byte(1, 255, bytes)?;
    let (stream, rest) = number(1, rest)?;
    let (reason, rest) = reason(rest)?;
    Ok((
        Payload::EndStream {
            instance,
            stream,
            reason,
        },
        rest,
    ))
}
