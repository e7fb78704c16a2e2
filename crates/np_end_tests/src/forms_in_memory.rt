//! The forms in memory of a peer, files and a sink.
use crate::environment::{file_fails, file_has, reads};
use np_ports::{
    Files, MemFiles, MemSink, Peer, PortError, ScriptedPeer, Sink, SureFiles, SurePeer, SureSink,
};
use std::alloc::Global;
use std::process::Abort;
use std::test::Fail;

#[test]
fn a_peer_gives_pieces(rt: HostRuntime) -> Result<(), Fail> {
    let alloc = rt.alloc();
    let given = b"abc".to_vec(alloc)?;
    let mut peer = SurePeer::new(alloc, given, 2);
    reads(&rt, &mut peer, Ok(2));
    reads(&rt, &mut peer, Ok(1));
    reads(&rt, &mut peer, Ok(0));
    Ok(())
}

#[test]
fn the_second_read_of_a_peer_fails(rt: HostRuntime) -> Result<(), Fail> {
    let alloc = rt.alloc();
    let given = b"abcde".to_vec(alloc)?;
    let fail_at = vec![in alloc; 2u64; 1]?;
    let mut peer = ScriptedPeer::new(alloc, given, 9, fail_at);
    reads(&rt, &mut peer, Ok(4));
    reads(&rt, &mut peer, Err(PortError::Failed));
    reads(&rt, &mut peer, Ok(1));
    Ok(())
}

fn start<P: Peer>(rt: &impl Abort, alloc: Global, peer: &mut P) -> Result<(), Fail> {
    let word = String::from_str(alloc, "program")?;
    let words = Vec::from_array(alloc, [word])?;
    assert_eq!(rt; peer.start(&words), Ok(()));
    Ok(())
}

#[test]
fn a_peer_keeps_what_it_is_sent(rt: HostRuntime) -> Result<(), Fail> {
    let alloc = rt.alloc();
    let mut peer = SurePeer::new(alloc, Vec::new(alloc), 1);
    start(&rt, alloc, &mut peer)?;
    assert_eq!(rt; peer.write(b"ab"), Ok(2));
    assert_eq!(rt; peer.taken(), b"ab".as_slice());
    assert_eq!(rt; peer.starts().len(), 1);
    Ok(())
}

#[test]
fn the_third_call_of_a_peer_fails(rt: HostRuntime) -> Result<(), Fail> {
    let alloc = rt.alloc();
    let fail_at = vec![in alloc; 3u64; 1]?;
    let mut peer = ScriptedPeer::new(alloc, Vec::new(alloc), 1, fail_at);
    start(&rt, alloc, &mut peer)?;
    assert_eq!(rt; peer.write(b"ab"), Ok(2));
    assert_eq!(rt; peer.write(b"cd"), Err(PortError::Failed));
    assert_eq!(rt; peer.write(b"ef"), Ok(2));
    assert_eq!(rt; peer.taken(), b"abef".as_slice());
    assert_eq!(rt; peer.starts().len(), 1);
    Ok(())
}

fn files(alloc: Global) -> Result<Vec<(String, Vec<u8>)>, Fail> {
    let name = String::from_str(alloc, "a")?;
    let content = b"new!".to_vec(alloc)?;
    let mut files = Vec::new(alloc);
    files.push((name, content))?;
    Ok(files)
}

#[test]
fn files_are_found_by_name(rt: HostRuntime) -> Result<(), Fail> {
    let alloc = rt.alloc();
    let entries = files(alloc)?;
    let mut files = SureFiles::new(alloc, entries);
    file_has(&rt, &mut files, "a", 1, b"ew!");
    file_has(&rt, &mut files, "c", 1, b"");
    assert_eq!(rt; files.put("c", b"put"), Ok(()));
    file_has(&rt, &mut files, "c", 1, b"ut");
    Ok(())
}

#[test]
fn the_second_read_of_a_file_fails(rt: HostRuntime) -> Result<(), Fail> {
    let alloc = rt.alloc();
    let entries = files(alloc)?;
    let fail_at = vec![in alloc; 2u64; 1]?;
    let mut files = MemFiles::new(alloc, entries, fail_at);
    file_has(&rt, &mut files, "a", 1, b"ew!");
    file_fails(&rt, &mut files, "a");
    file_fails(&rt, &mut files, "c");
    assert_eq!(rt; files.put("c", b"put"), Ok(()));
    file_has(&rt, &mut files, "c", 1, b"ut");
    Ok(())
}

#[test]
fn a_sink_keeps_what_it_prints(rt: HostRuntime) {
    let mut sink = SureSink::new(rt.alloc());
    assert_eq!(rt; sink.write(b"ab"), Ok(2));
    assert_eq!(rt; sink.bytes(), b"ab".as_slice());
}

#[test]
fn the_second_write_of_a_sink_fails(rt: HostRuntime) -> Result<(), Fail> {
    let alloc = rt.alloc();
    let fail_at = vec![in alloc; 2u64; 1]?;
    let mut sink = MemSink::new(alloc, fail_at);
    assert_eq!(rt; sink.write(b"ab"), Ok(2));
    assert_eq!(rt; sink.write(b"cd"), Err(PortError::Failed));
    assert_eq!(rt; sink.write(b"ef"), Ok(2));
    assert_eq!(rt; sink.bytes(), b"abef".as_slice());
    Ok(())
}
