//! A message of each kind is decoded and encoded again. The bytes were worked out by hand from docs/WIRE.md.
use np_wire::{Feed, encode};
use std::alloc::Global;
use std::test::Fail;

const ROWS: &[&[u8]] = &[
    // Hello.
    b"\0\0\0\x07\x01\x01\0\0\x01\0\x1b",
    // New.
    b"\0\0\0\x13\x02\x01\0\0\xff\x02\0\x03\x74\x2f\x78\x01\0\x03\x73\x72\x63\0\0",
    // Destroy.
    b"\0\0\0\x05\x03\x01\0\0\x01",
    // Scriptable.
    b"\0\0\0\x05\x04\x01\0\0\xff",
    // Turn.
    b"\0\0\0\x04\x05\x01\0\0",
    // NewStream.
    b"\0\0\0\x17\x06\x01\0\0\x01\0\0\0\x01\0\x03\x75\x2f\x31\0\x03\x74\x2f\x70\0\0\0\0",
    // WriteReady.
    b"\0\0\0\x09\x07\x01\0\0\x01\0\0\0\x01",
    // Write.
    b"\0\0\0\x12\x08\x01\0\0\x02\0\0\0\x03\xff\xff\xff\xff\0\x03\0\xff\x80",
    // AsFile.
    b"\0\0\0\x16\x09\x01\0\0\x01\0\0\0\x01\0\x0b\x6e\x70\x2d\x73\x74\x72\x65\x61\x6d\x2d\x31",
    // DestroyStream.
    b"\0\0\0\x0a\x0a\x01\0\0\x01\0\0\0\x01\0",
    // Notify.
    b"\0\0\0\x0d\x0b\x01\0\0\x01\0\x01\x75\0\0\0\0\0",
    // Shutdown.
    b"\0\0\0\x04\x0c\x01\0\0",
    // Window.
    b"\0\0\0\x05\x20\x01\0\0\x01",
    // GetUrl.
    b"\0\0\0\x0c\x21\x01\0\0\x01\0\x01\x75\xff\xff\xff\xff",
    // RequestRead.
    b"\0\0\0\x2a\x22\x01\0\0\x01\0\0\0\x01\x04\0\0\0\0\0\0\0\0\xff\xff\xff\xff\xff\xff\xff\xff\x7f\xff\xff\xff\0\0\0\x02\x80\0\0\0\0\0\0\x03",
    // EndStream.
    b"\0\0\0\x0a\x23\x01\0\0\x01\0\0\0\x01\x02",
    // invoke.
    b"\0\0\0\x2c\x40\x01\0\0\x01\0\0\0\x01\x01\x01\0\0\0\0\x08\0\x01\x02\0\x02\x01\x03\xff\xff\xff\xff\x05\0\0\x06\0\x01\0\0\0\x01\x06\x01\xff\xff\xff\xff\xff",
    // invokeDefault.
    b"\0\0\0\x0f\x40\x01\0\0\x01\0\0\0\x01\x02\x01\x05\0\x01\x61",
    // construct.
    b"\0\0\0\x0d\x40\x01\0\0\x01\0\0\0\x01\x03\x02\0\x01",
    // getProperty.
    b"\0\0\0\x0e\x40\x01\0\0\x01\0\0\0\x01\x04\0\0\x01\x61",
    // setProperty.
    b"\0\0\0\x16\x40\x01\0\0\x01\0\0\0\x01\x05\x01\x80\0\0\0\x06\x01\x01\0\0\0\x02",
    // removeProperty.
    b"\0\0\0\x0f\x40\x01\0\0\x01\0\0\0\x01\x06\x01\x7f\xff\xff\xff",
    // hasMethod.
    b"\0\0\0\x0d\x40\x01\0\0\x01\0\0\0\x01\x07\0\0\0",
    // hasProperty.
    b"\0\0\0\x0f\x40\x01\0\0\x01\0\0\0\x01\x08\0\0\x02\xc3\xa9",
    // enumerate.
    b"\0\0\0\x0a\x40\x01\0\0\x01\0\0\0\x01\x09",
    // True: each type of value.
    b"\0\0\0\x05\x41\x01\0\0\0",
    b"\0\0\0\x05\x41\x01\0\0\x01",
    b"\0\0\0\x06\x41\x01\0\0\x02\x01",
    b"\0\0\0\x09\x41\x01\0\0\x03\x80\0\0\0",
    b"\0\0\0\x0d\x41\x01\0\0\x04\xff\xf0\0\0\0\0\0\0",
    b"\0\0\0\x0b\x41\x01\0\0\x05\0\x04\xf0\x9f\x98\x80",
    b"\0\0\0\x0b\x41\x01\0\0\x06\x01\xff\xff\xff\xff\xff",
    // False.
    b"\0\0\0\x04\x42\x01\0\0",
    // Threw.
    b"\0\0\0\x09\x43\x01\0\0\0\x03\xe2\x82\xac",
    // Idents.
    b"\0\0\0\x11\x44\x01\0\0\x03\0\0\x01\x61\x01\0\0\0\x01\0\0\0",
    // Code.
    b"\0\0\0\x05\x45\x01\0\0\x0d",
    // Number.
    b"\0\0\0\x08\x46\x01\0\0\x80\0\0\0",
    // Done.
    b"\0\0\0\x04\x47\x01\0\0",
    // A task's mark.
    b"\0\0\0\x04\x05\x81\0\0",
    // Two releases.
    b"\0\0\0\x16\x47\x01\0\x02\x01\0\0\0\x01\0\0\0\x01\x01\0\0\0\x02\xff\xff\xff\xff",
];

/// Whether these bytes are decoded as one message, which is encoded as these bytes.
fn is_encoded_again(alloc: Global, bytes: &[u8]) -> Result<bool, Fail> {
    let mut feed = Feed::new(alloc);
    feed.push(bytes)?;
    let Some(message) = feed.next()? else {
        return Ok(false);
    };
    let mut out = Vec::new(alloc);
    encode(&message, &mut out)?;
    Ok(out.as_slice() == bytes && feed.consumed() == bytes.len() as u64)
}

#[test]
fn each_kind_is_encoded_again(rt: HostRuntime) -> Result<(), Fail> {
    let alloc = rt.alloc();
    for row in ROWS {
        let again = is_encoded_again(alloc, row)?;
        assert!(rt; again, "{row:?}");
    }
    Ok(())
}
