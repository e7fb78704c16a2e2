//! The standard streams.
use np_ports::{Peer, PortError, Sink, StdPeer, StdoutSink};
use std::test::Fail;

#[test]
fn standard_output_takes_bytes(rt: HostRuntime) {
    let mut sink = StdoutSink::new(rt.stdout());
    assert_eq!(rt; sink.write(b"printed\n"), Ok(8));
}

#[test]
fn standard_streams_are_a_peer(rt: HostRuntime) -> Result<(), Fail> {
    let alloc = rt.alloc();
    let word = String::from_str(alloc, "cat")?;
    let words = Vec::from_array(alloc, [word])?;
    let mut peer = StdPeer::new(rt.stdin(), rt.stdout());
    assert_eq!(rt; peer.start(&words), Err(PortError::Failed));
    assert_eq!(rt; peer.write(b"sent\n"), Ok(5));
    Ok(())
}
