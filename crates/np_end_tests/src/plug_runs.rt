//! Worked runs of the plug-in's end over a host in memory.
ghost use Rattle.std.specs.Prelude.{◌<◌};

use crate::wire_text::{messages, replies};
use np_end_stops::{Ending, Stop};
use np_exchange::talk;
use np_model::Plugin;
use np_plug_end::PlugEnd;
use np_ports::{MemSink, ScriptedPeer, SurePeer, SureSink};
use std::alloc::Global;
use std::process::Abort;
use std::test::Fail;

const PLUGIN: Plugin = Plugin {
    major: 0,
    minor: 27,
    new_handler: Some(0),
};

/// The plug-in, over a host that gives its messages, with this many turns, in pieces of this size.
fn runs(rt: &impl Abort, alloc: Global, turns: u16, size: usize) -> Result<(), Fail>
    requires some { 0 < size }
{
    let given = messages(alloc, turns)?;
    let wanted = replies(alloc, turns)?;
    let mut end = PlugEnd::new(alloc, PLUGIN)?;
    let mut peer = SurePeer::new(alloc, given, size);
    let mut out = SureSink::new(alloc);
    let ending = talk(&mut end, &mut peer, &mut out);
    assert_eq!(rt; ending, Ok(Ending::Done));
    assert_eq!(rt; peer.taken(), wanted.as_slice());
    assert_eq!(rt; out.bytes(), b"> inst:1 new\n".as_slice());
    Ok(())
}

#[test]
fn a_plugin_serves_pieces_of_1_byte(rt: HostRuntime) -> Result<(), Fail> {
    runs(&rt, rt.alloc(), 1, 1)
}

#[test]
fn a_plugin_serves_pieces_of_4096_bytes(rt: HostRuntime) -> Result<(), Fail> {
    runs(&rt, rt.alloc(), 1, 4096)
}

#[test]
fn a_plugin_serves_304_requests(rt: HostRuntime) -> Result<(), Fail> {
    runs(&rt, rt.alloc(), 300, 100)
}

// The calls are: read Hello and New, write both replies, read the rest.
#[test]
fn the_second_read_fails(rt: HostRuntime) -> Result<(), Fail> {
    let alloc = rt.alloc();
    let given = messages(alloc, 1)?;
    let fail_at = vec![in alloc; 3u64; 1]?;
    let mut end = PlugEnd::new(alloc, PLUGIN)?;
    let mut peer = ScriptedPeer::new(alloc, given, 27, fail_at);
    let mut out = SureSink::new(alloc);
    let ending = talk(&mut end, &mut peer, &mut out);
    assert_eq!(rt; ending, Ok(Ending::Failed));
    assert_eq!(rt; out.bytes(), b"> inst:1 new\n".as_slice());
    Ok(())
}

#[test]
fn the_first_note_is_not_printed(rt: HostRuntime) -> Result<(), Fail> {
    let alloc = rt.alloc();
    let given = messages(alloc, 1)?;
    let fail_at = vec![in alloc; 1u64; 1]?;
    let mut end = PlugEnd::new(alloc, PLUGIN)?;
    let mut peer = SurePeer::new(alloc, given, 27);
    let mut out = MemSink::new(alloc, fail_at);
    let ending = talk(&mut end, &mut peer, &mut out);
    assert_eq!(rt; ending, Err(Stop::OutputFailed));
    assert_eq!(rt; out.bytes(), b"".as_slice());
    Ok(())
}
