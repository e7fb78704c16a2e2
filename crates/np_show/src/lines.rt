//! The lines of messages.

ghost use Rattle.std.specs.Prelude.{◌≡◌, ◌+◌, ◌++◌, ◌∷◌, [], decimal, length, OnOk, IfOk};
ghost use Rattle.np_message.specs.Encoding.{body_of};
ghost use Rattle.np_show.specs.Listing.{message_line};
ghost use Rattle.np_show.specs.Taking.{TakesLines, StandsAt};

use np_message::{Message, WireError};
use np_values::{NoMemory, push_number};
use np_wire::{Feed, FeedError};

/// Appends a number and a space.
fn push_spaced(out: &mut Vec<u8>, number: u64) -> Result<(), NoMemory>
    ensures ok { OnOk result (out.new.items ≡ out.old.items ++ decimal number ++ 32 ∷ []) }
{
    push_number(out, number)?;
    out.push(b' ')?;
    Ok(())
}

/// Appends the line of a message, whose length field is at this place and has this value.
fn push_line(out: &mut Vec<u8>, at: u64, message: &Message, size: u64) -> Result<(), NoMemory>
    requires size { size ≡ length (body_of message.now) }
    ensures ok { OnOk result (out.new.items ≡ out.old.items ++ message_line at message.now) }
{
    push_spaced(out, at)?;
    push_spaced(out, u64::from(message.body().kind()))?;
    push_spaced(out, u64::from(message.depth().byte()))?;
    push_spaced(out, message.releases().len() as u64)?;
    push_number(out, size)?;
    out.push(b'\n')?;
    Ok(())
}

/// As `push_line`, and drops the message.
fn list_message(out: &mut Vec<u8>, at: u64, message: Message, size: u64) -> Result<(), NoMemory>
    requires size { size ≡ length (body_of message) }
    ensures ok { OnOk result (out.new.items ≡ out.old.items ++ message_line at message) }
{
    push_line(out, at, &message, size)
}

/// Takes the whole messages off the feed, and appends their lines; the fault of the one after them, if it
/// has one.
pub fn take_lines(feed: &mut Feed, lines: &mut Vec<u8>) -> Result<Option<WireError>, NoMemory>
    ensures taken { OnOk result (TakesLines feed.old feed.new lines.old.items lines.new.items) }
    ensures stands { IfOk result (λ fault. StandsAt feed.new fault) }
    ensures total { OnOk result (feed.new.consumed + length feed.new.left ≡ feed.old.consumed + length feed.old.left) }
{
    loop {
        let at = feed.consumed();
        match feed.next() {
            Ok(None) => return Ok(None),
            Ok(Some(message)) => {
                let size = feed.consumed() - at - 4;
                list_message(lines, at, message, size)?;
            }
            Err(FeedError::Wire(error)) => return Ok(Some(error)),
            Err(FeedError::NoMemory) => return Err(NoMemory),
        }
    }
}
