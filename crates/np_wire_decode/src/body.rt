//! Bodies of messages.

ghost use Rattle.std.specs.Prelude.{◌≡◌, true, false};
ghost use Rattle.np_message.specs.Formats.{page_call_format, plugin_call_format, shared_format, message_format, some_format};
ghost use Rattle.np_message.specs.Decoding.{read, whole};
ghost use Rattle.np_wire_decode.specs.Reading.{Gives, WantsMemoryOnly, WantsOnly, GivesBody, broken_by, read_kind, read_body, is_plain_kind, needs_memory};

use crate::items::{count, depth, kind};
use crate::lists::releases;
use crate::object_calls::{call, code_reply, idents_reply, number_reply, threw, true_reply};
use crate::page_calls::{
    as_file, destroy, destroy_stream, hello, new, new_stream, notify, scriptable, write,
    write_ready,
};
use crate::plugin_calls::{end_stream, get_url, request_read, window};
use crate::unread::{Broken, Unread};
use np_message::{Depth, Message, Payload};
use np_proxy_release::Releases;
use np_wire_laws::read_bodies_are_messages;
use std::alloc::Global;

// The items of a call of an object or of a reply.
#[tactic(auto, unfolding(np_message::specs::Formats::shared_format))]
fn shared(alloc: Global, kind: u8, bytes: &[u8]) -> Result<(Payload, &[u8]), Unread>
    ensures exact { Gives (λ x. (x.0, x.1.now)) result (read (some_format (shared_format kind)) bytes.now) }
    ensures memory { WantsMemoryOnly (is_plain_kind kind ≡ false) result }
{
    match kind {
        0x40 => call(alloc, bytes),
        0x41 => true_reply(alloc, bytes),
        0x42 => Ok((Payload::False, bytes)),
        0x43 => threw(alloc, bytes),
        0x44 => idents_reply(alloc, bytes),
        0x45 => code_reply(bytes),
        0x46 => number_reply(bytes),
        _ => Ok((Payload::Done, bytes)),
    }
}

// The items of a call of the plug-in, or of what both sides send.
#[tactic(auto, unfolding(np_message::specs::Formats::plugin_call_format))]
fn plugin_call(alloc: Global, kind: u8, bytes: &[u8]) -> Result<(Payload, &[u8]), Unread>
    ensures exact { Gives (λ x. (x.0, x.1.now)) result (read (some_format (plugin_call_format kind (shared_format kind))) bytes.now) }
    ensures memory { WantsMemoryOnly (is_plain_kind kind ≡ false) result }
{
    match kind {
        0x20 => window(bytes),
        0x21 => get_url(alloc, bytes),
        0x22 => request_read(alloc, bytes),
        0x23 => end_stream(bytes),
        kind => shared(alloc, kind, bytes),
    }
}

// The items of the kind with this number.
#[tactic(auto, unfolding(np_message::specs::Formats::page_call_format))]
fn payload(alloc: Global, kind: u8, bytes: &[u8]) -> Result<(Payload, &[u8]), Unread>
    ensures exact { Gives (λ x. (x.0, x.1.now)) result (read_kind kind bytes.now) }
    ensures memory { WantsMemoryOnly (is_plain_kind kind ≡ false) result }
{
    match kind {
        0x01 => hello(bytes),
        0x02 => new(alloc, bytes),
        0x03 => destroy(bytes),
        0x04 => scriptable(bytes),
        0x05 => Ok((Payload::Turn, bytes)),
        0x06 => new_stream(alloc, bytes),
        0x07 => write_ready(bytes),
        0x08 => write(alloc, bytes),
        0x09 => as_file(alloc, bytes),
        0x0a => destroy_stream(bytes),
        0x0b => notify(alloc, bytes),
        0x0c => Ok((Payload::Shutdown, bytes)),
        kind => plugin_call(alloc, kind, bytes),
    }
}

// What a body says, and the bytes after its last item.
#[tactic(auto, unfolding(crate::specs::Reading::read_body), using(crate::proofs::Heads::needs_by_count, crate::proofs::Heads::needs_by_kind))]
fn items(alloc: Global, bytes: &[u8]) -> Result<(Depth, Releases, Payload, &[u8]), Unread>
    ensures exact { Gives (λ x. (record { depth = x.0; releases = x.1; body = x.2 }, x.3.now)) result (read_body bytes.now) }
    ensures memory { WantsMemoryOnly (needs_memory bytes.now ≡ true) result }
{
    let (kind, rest) = kind(bytes)?;
    let (depth, rest) = depth(rest)?;
    let (count, rest) = count(1024, rest)?;
    let (releases, rest) = releases(alloc, count, rest)?;
    let (body, rest) = payload(alloc, kind, rest)?;
    Ok((depth, releases, body, rest))
}

// What items that weren't read make of a body.
fn broken(unread: Unread) -> Broken
    ensures { result ≡ broken_by unread }
{
    match unread {
        Unread::Fault(left) => Broken::Item(left),
        Unread::NoMemory => Broken::NoMemory,
    }
}

/// The message whose body these bytes are, or the rule that they break and how many bytes are left from there on. (This project's own.)
pub fn decode_body(alloc: Global, bytes: &[u8]) -> Result<Message, Broken>
    ensures exact { GivesBody result (whole (read message_format bytes.now)) }
    ensures memory { WantsOnly (needs_memory bytes.now ≡ true) result }
{
    read_bodies_are_messages();
    match items(alloc, bytes) {
        Ok((depth, releases, body, rest)) => {
            let left = rest.len();
            if left > 0 {
                return Err(Broken::Rest(left));
            }
            Ok(Message::new(depth, releases, body))
        }
        Err(unread) => Err(broken(unread)),
    }
}
