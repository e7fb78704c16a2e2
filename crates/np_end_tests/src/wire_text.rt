//! What a page and a plug-in say to each other: the page makes an instance, has turns, and destroys the instance.
use std::alloc::Global;
use std::test::Fail;

const HELLO_AND_NEW: &[u8] =
    b"\0\0\0\x07\x01\x01\0\0\x01\0\x1b\0\0\0\x0c\x02\x01\0\0\x01\x01\0\x03t/x\0";

const TURN: &[u8] = b"\0\0\0\x04\x05\x01\0\0";

const DESTROY_AND_SHUTDOWN: &[u8] = b"\0\0\0\x05\x03\x01\0\0\x01\0\0\0\x04\x0c\x01\0\0";

const TWO_CODES: &[u8] = b"\0\0\0\x05\x45\x01\0\0\0\0\0\0\x05\x45\x01\0\0\0";

const DONE: &[u8] = b"\0\0\0\x04\x47\x01\0\0";

const CODE_AND_DONE: &[u8] = b"\0\0\0\x05\x45\x01\0\0\0\0\0\0\x04\x47\x01\0\0";

/// Bytes with others between them, so often.
pub fn repeated(
    alloc: Global,
    first: &[u8],
    middle: &[u8],
    times: u16,
    last: &[u8],
) -> Result<Vec<u8>, Fail> {
    let mut bytes = first.to_vec(alloc)?;
    for _ in 0..times {
        bytes.extend_from_slice(middle)?;
    }
    bytes.extend_from_slice(last)?;
    Ok(bytes)
}

/// What the page writes, where it has this many turns.
pub fn messages(alloc: Global, turns: u16) -> Result<Vec<u8>, Fail> {
    repeated(alloc, HELLO_AND_NEW, TURN, turns, DESTROY_AND_SHUTDOWN)
}

/// The replies to that.
pub fn replies(alloc: Global, turns: u16) -> Result<Vec<u8>, Fail> {
    repeated(alloc, TWO_CODES, DONE, turns, CODE_AND_DONE)
}
