//! Messages that come in other chunks than they were written.
ghost use Rattle.std.specs.Prelude.{◌≡◌, ◌+◌, length};

use np_wire::{Feed, FeedError, WireError, WireKind};
use std::test::Fail;

/// Whether a whole message is at the front; it is taken off.
fn gives(feed: &mut Feed) -> Result<bool, FeedError>
    ensures kept { feed.new.consumed + length feed.new.left ≡ feed.old.consumed + length feed.old.left }
{
    let message = feed.next()?;
    Ok(message.is_some())
}

#[test]
fn a_message_comes_in_two_pushes(rt: HostRuntime) -> Result<(), Fail> {
    let mut feed = Feed::new(rt.alloc());
    feed.push(b"\0\0\0\x05\x45\x01")?;
    assert_eq!(rt; gives(&mut feed), Ok(false));
    feed.push(b"\0\0\x0d\0\0")?;
    assert_eq!(rt; gives(&mut feed), Ok(true));
    assert_eq!(rt; feed.consumed(), 9);
    Ok(())
}

// The place of a fault counts from the first byte of all.
#[test]
fn a_fault_comes_after_a_message(rt: HostRuntime) -> Result<(), Fail> {
    let mut feed = Feed::new(rt.alloc());
    feed.push(b"\0\0\0\x04\x05\x01\0\0\0\0\0\x06\x41\x01\0\0\x02\x02")?;
    let error = WireError {
        at: 16,
        kind: WireKind::Item,
        first: 8,
        second: 6,
    };
    assert_eq!(rt; gives(&mut feed), Ok(true));
    assert_eq!(rt; gives(&mut feed), Err(FeedError::Wire(error)));
    Ok(())
}
