//! Whole messages, appended to bytes.

ghost use Rattle.std.specs.Prelude.{◌≡◌, ◌++◌, ◌∷◌, ◌≤◌, length, OnOk, OnErr};
ghost use Rattle.np_message.specs.Encoding.{encoding, body_of, releases_items};
ghost use Rattle.np_wire_encode.specs.Writing.{Extends};

use crate::items::push_releases;
use crate::lengths::items_len;
use crate::payloads::push_items;
use np_message::Message;
use np_proxy_release::Release;
use np_values::NoMemory;

// Releases after their number.
fn push_counted_releases(out: &mut Vec<u8>, releases: &[Release]) -> Result<(), NoMemory>
    requires { length releases.now ≤ 1024 }
    ensures ok { OnOk result (out.new.items ≡ out.old.items ++ releases_items releases.now) }
    ensures kept { Extends out.old.items out.new.items }
{
    out.extend_from_slice(&(releases.len() as u16).to_be_bytes())?;
    push_releases(out, releases)
}

// The body, from its kind on.
fn push_body(out: &mut Vec<u8>, message: &Message) -> Result<(), NoMemory>
    ensures ok { OnOk result (out.new.items ≡ out.old.items ++ body_of message.now) }
    ensures kept { Extends out.old.items out.new.items }
{
    let kind = message.body().kind();
    let depth = message.depth().byte();
    out.extend_from_slice(&[kind, depth])?;
    push_counted_releases(out, message.releases().as_slice())?;
    push_items(out, message.body())
}

// How many bytes the body has.
#[tactic(auto, using(crate::proofs::Sizes::releases_length))]
fn body_len(message: &Message) -> u32
    ensures value { result ≡ length (body_of message.now) }
{
    4 + 9 * message.releases().len() as u32 + items_len(message.body())
}

#[tactic(auto, unfolding(np_message::specs::Encoding::encoding))]
fn push_message(out: &mut Vec<u8>, message: &Message) -> Result<(), NoMemory>
    ensures ok { OnOk result (out.new.items ≡ out.old.items ++ encoding message.now) }
    ensures kept { Extends out.old.items out.new.items }
{
    let length = body_len(message);
    out.extend_from_slice(&length.to_be_bytes())?;
    push_body(out, message)
}

/// Appends the message's only encoding. It allocates nothing but the room in `out`. (This project's own.)
pub fn encode(message: &Message, out: &mut Vec<u8>) -> Result<(), NoMemory>
    ensures ok { OnOk result (out.new.items ≡ out.old.items ++ encoding message.now) }
    ensures err { OnErr result (out.new.items ≡ out.old.items) }
{
    let before = out.len();
    match push_message(out, message) {
        Ok(()) => Ok(()),
        Err(error) => {
            out.truncate(before);
            Err(error)
        }
    }
}
