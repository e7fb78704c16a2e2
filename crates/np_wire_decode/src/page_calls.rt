//! Readers of the page's calls.

ghost use Rattle.std.specs.Prelude.{◌≡◌};
ghost use Rattle.np_message.specs.Formats.{hello_format, new_format, destroy_format, scriptable_format, new_stream_format, write_ready_format, write_format, as_file_format, destroy_stream_format, notify_format};
ghost use Rattle.np_message.specs.Decoding.{read};
ghost use Rattle.np_wire_decode.specs.Reading.{Gives, WantsMemoryOnly};

use crate::items::{byte, chunk, int, number, reason, text};
use crate::lists::texts;
use crate::unread::Unread;
use np_message::Payload;
use std::alloc::Global;

/// Reads the version of the wire format, major and minor.
pub fn hello(bytes: &[u8]) -> Result<(Payload, &[u8]), Unread>
    ensures exact { Gives (λ x. (x.0, x.1.now)) result (read hello_format bytes.now) }
    ensures sure { WantsMemoryOnly ⊥ result }
{
    let (version, rest) = byte(1, 1, bytes)?;
    let (major, rest) = byte(0, 255, rest)?;
    let (minor, rest) = byte(0, 255, rest)?;
    Ok((
        Payload::Hello {
            version,
            major,
            minor,
        },
        rest,
    ))
}

/// NPP_New.
#[tactic(auto, using(crate::proofs::ReadLists::many_read))]
pub fn new(alloc: Global, bytes: &[u8]) -> Result<(Payload, &[u8]), Unread>
    ensures exact { Gives (λ x. (x.0, x.1.now)) result (read new_format bytes.now) }
{
    let (instance, rest) = byte(1, 255, bytes)?;
    let (mode, rest) = byte(1, 2, rest)?;
    let (mime, rest) = text(alloc, rest)?;
    let (pairs, rest) = byte(0, 3, rest)?;
    let (attributes, rest) = texts(alloc, pairs + pairs, rest)?;
    Ok((
        Payload::New {
            instance,
            mode,
            mime,
            attributes,
        },
        rest,
    ))
}

/// Reads the items of NPP_Destroy.
pub fn destroy(bytes: &[u8]) -> Result<(Payload, &[u8]), Unread>
    ensures exact { Gives (λ x. (x.0, x.1.now)) result (read destroy_format bytes.now) }
    ensures sure { WantsMemoryOnly ⊥ result }
{
    let (instance, rest) = byte(1, 255, bytes)?;
    Ok((Payload::Destroy { instance }, rest))
}

/// Reads the items of NPP_GetValue of the scriptable object.
pub fn scriptable(bytes: &[u8]) -> Result<(Payload, &[u8]), Unread>
    ensures exact { Gives (λ x. (x.0, x.1.now)) result (read scriptable_format bytes.now) }
    ensures sure { WantsMemoryOnly ⊥ result }
{
    let (instance, rest) = byte(1, 255, bytes)?;
    Ok((Payload::Scriptable { instance }, rest))
}

/// Reads the items of NPP_NewStream.
pub fn new_stream(alloc: Global, bytes: &[u8]) -> Result<(Payload, &[u8]), Unread>
    ensures exact { Gives (λ x. (x.0, x.1.now)) result (read new_stream_format bytes.now) }
{
    let (instance, rest) = byte(1, 255, bytes)?;
    let (stream, rest) = number(1, rest)?;
    let (url, rest) = text(alloc, rest)?;
    let (mime, rest) = text(alloc, rest)?;
    let (length, rest) = number(0, rest)?;
    Ok((
        Payload::NewStream {
            instance,
            stream,
            url,
            mime,
            length,
        },
        rest,
    ))
}

/// Reads the items of NPP_WriteReady.
pub fn write_ready(bytes: &[u8]) -> Result<(Payload, &[u8]), Unread>
    ensures exact { Gives (λ x. (x.0, x.1.now)) result (read write_ready_format bytes.now) }
    ensures sure { WantsMemoryOnly ⊥ result }
{
    let (instance, rest) = byte(1, 255, bytes)?;
    let (stream, rest) = number(1, rest)?;
    Ok((Payload::WriteReady { instance, stream }, rest))
}

/// Reads the items of NPP_Write.
pub fn write(alloc: Global, bytes: &[u8]) -> Result<(Payload, &[u8]), Unread>
    ensures exact { Gives (λ x. (x.0, x.1.now)) result (read write_format bytes.now) }
{
    let (instance, rest) = byte(1, 255, bytes)?;
    let (stream, rest) = number(1, rest)?;
    let (offset, rest) = number(0, rest)?;
    let (bytes, rest) = chunk(alloc, rest)?;
    Ok((
        Payload::Write {
            instance,
            stream,
            offset,
            bytes,
        },
        rest,
    ))
}

/// Reads the items of NPP_StreamAsFile.
pub fn as_file(alloc: Global, bytes: &[u8]) -> Result<(Payload, &[u8]), Unread>
    ensures exact { Gives (λ x. (x.0, x.1.now)) result (read as_file_format bytes.now) }
{
    let (instance, rest) = byte(1, 255, bytes)?;
    let (stream, rest) = number(1, rest)?;
    let (path, rest) = text(alloc, rest)?;
    Ok((
        Payload::AsFile {
            instance,
            stream,
            path,
        },
        rest,
    ))
}

/// Reads the items of NPP_DestroyStream.
pub fn destroy_stream(bytes: &[u8]) -> Result<(Payload, &[u8]), Unread>
    ensures exact { Gives (λ x. (x.0, x.1.now)) result (read destroy_stream_format bytes.now) }
    ensures sure { WantsMemoryOnly ⊥ result }
{
    let (instance, rest) = byte(1, 255, bytes)?;
    let (stream, rest) = number(1, rest)?;
    let (reason, rest) = reason(rest)?;
    Ok((
        Payload::DestroyStream {
            instance,
            stream,
            reason,
        },
        rest,
    ))
}

/// Reads the items of NPP_URLNotify.
pub fn notify(alloc: Global, bytes: &[u8]) -> Result<(Payload, &[u8]), Unread>
    ensures exact { Gives (λ x. (x.0, x.1.now)) result (read notify_format bytes.now) }
{
    let (instance, rest) = byte(1, 255, bytes)?;
    let (url, rest) = text(alloc, rest)?;
    let (reason, rest) = reason(rest)?;
    let (word, rest) = int(rest)?;
    Ok((
        Payload::Notify {
            instance,
            url,
            reason,
            word,
        },
        rest,
    ))
}
