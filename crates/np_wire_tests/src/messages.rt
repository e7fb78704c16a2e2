//! A message that is made of its parts, and one that is read of a body.
use np_message::{Depth, Message, Payload};
use np_proxy_release::{Release, Releases};
use np_wire::encode;
use np_wire_decode::decode_body;
use std::test::Fail;

#[test]
fn a_message_of_a_task_with_a_release_is_encoded(rt: HostRuntime) -> Result<(), Fail> {
    let alloc = rt.alloc();
    let mut releases = Releases::new(alloc);
    releases.push(Release {
        instance: 1,
        serial: 3,
        times: 2,
    })?;
    let depth = Depth {
        level: 64,
        task: true,
    };
    let message = Message::new(depth, releases, Payload::Done);
    let mut out = Vec::new(alloc);
    encode(&message, &mut out)?;
    assert_eq!(rt;
        out.as_slice(),
        b"\0\0\0\x0d\x47\xc0\0\x01\x01\0\0\0\x03\0\0\0\x02".as_slice()
    );
    Ok(())
}

#[test]
fn a_body_is_decoded(rt: HostRuntime) -> Result<(), Fail> {
    let message = decode_body(rt.alloc(), &[0x47, 129, 0, 1, 2, 0, 0, 0, 1, 0, 0, 0, 2])?;
    assert_eq!(rt; message.body().kind(), 0x47);
    assert_eq!(rt; message.body().instance(), 0);
    assert!(rt; message.body().is_reply());
    assert_eq!(rt; message.depth().byte(), 129);
    assert_eq!(rt; message.releases().len(), 1);
    Ok(())
}
