//! Worked runs of the host's end over a plug-in in memory.
ghost use Rattle.std.specs.Prelude.{◌<◌};

use crate::wire_text::{messages, repeated, replies};
use np_end_stops::{Ending, Stop};
use np_exchange::{print_journal, talk};
use np_host_end::{HostEnd, State};
use np_model_scripts::serve_page;
use np_ports::{MemSink, ScriptedPeer, SurePeer, SureSink};
use std::alloc::Global;
use std::process::Abort;
use std::test::Fail;

const PAGE: &str = "page 0 27\ndo\ncreate \"t/x\" embed\nturn\n";

const CREATE: &[u8] = b"page 0 27\ndo\ncreate \"t/x\" embed\n";

/// The page of one turn, over a peer that gives the replies in pieces of this size.
fn runs_in_pieces(rt: &impl Abort, alloc: Global, size: usize) -> Result<(), Fail>
    requires some { 0 < size }
{
    let given = replies(alloc, 1)?;
    let wanted = messages(alloc, 1)?;
    let page = serve_page(alloc, PAGE.as_bytes())?;
    let mut end = HostEnd::new(alloc, page)?;
    let mut peer = SurePeer::new(alloc, given, size);
    let mut out = SureSink::new(alloc);
    let ending = talk(&mut end, &mut peer, &mut out);
    assert_eq!(rt; ending, Ok(Ending::Done));
    assert_eq!(rt; peer.taken(), wanted.as_slice());
    assert_eq!(rt; out.bytes(), b"1: error 0\n2: true void\n".as_slice());
    Ok(())
}

#[test]
fn a_page_runs_in_pieces_of_1_byte(rt: HostRuntime) -> Result<(), Fail> {
    runs_in_pieces(&rt, rt.alloc(), 1)
}

#[test]
fn a_page_runs_in_pieces_of_4096_bytes(rt: HostRuntime) -> Result<(), Fail> {
    runs_in_pieces(&rt, rt.alloc(), 4096)
}

/// The journal of this page.
fn journal(alloc: Global, turns: u16) -> Result<String, Fail> {
    let mut journal = String::from_str(alloc, "1: error 0\n")?;
    for number in 0..turns {
        let line = format!(in alloc; "{}: true void\n", u32::from(number) + 2)?;
        journal.push_str(&line)?;
    }
    Ok(journal)
}

#[test]
fn a_page_of_301_commands_runs_to_its_end(rt: HostRuntime) -> Result<(), Fail> {
    let alloc = rt.alloc();
    let script = repeated(alloc, CREATE, b"turn\n", 300, b"")?;
    let given = replies(alloc, 300)?;
    let wanted = messages(alloc, 300)?;
    let lines = journal(alloc, 300)?;
    let page = serve_page(alloc, &script)?;
    let mut end = HostEnd::new(alloc, page)?;
    let mut peer = SurePeer::new(alloc, given, 100);
    let mut out = SureSink::new(alloc);
    let ending = talk(&mut end, &mut peer, &mut out);
    assert_eq!(rt; ending, Ok(Ending::Done));
    assert_eq!(rt; peer.taken(), wanted.as_slice());
    assert_eq!(rt; out.bytes(), lines.as_bytes());
    Ok(())
}

/// The page of one turn over a peer whose call of this number fails. This is printed, the last line after the peer was lost.
fn prints_alone_after(
    rt: &impl Abort,
    alloc: Global,
    fails: u64,
    printed: &[u8],
) -> Result<(), Fail> {
    let given = replies(alloc, 1)?;
    let fail_at = vec![in alloc; fails; 1]?;
    let page = serve_page(alloc, PAGE.as_bytes())?;
    let mut end = HostEnd::new(alloc, page)?;
    let mut peer = ScriptedPeer::new(alloc, given, 9, fail_at);
    let mut out = SureSink::new(alloc);
    let ending = talk(&mut end, &mut peer, &mut out);
    assert_eq!(rt; ending, Ok(Ending::Failed));
    end.gone();
    assert_eq!(rt; end.run(), Ok(State::Finished));
    assert_eq!(rt; print_journal(&mut end, &mut out), Ok(()));
    assert_eq!(rt; out.bytes(), printed);
    Ok(())
}

// The calls are: write Hello, read, write New, read, write Turn.
#[test]
fn the_second_read_fails(rt: HostRuntime) -> Result<(), Fail> {
    prints_alone_after(&rt, rt.alloc(), 4, b"1: error 4\n2: false\n")
}

#[test]
fn the_third_write_fails(rt: HostRuntime) -> Result<(), Fail> {
    prints_alone_after(&rt, rt.alloc(), 5, b"1: error 0\n2: false\n")
}

#[test]
fn the_second_line_is_not_printed(rt: HostRuntime) -> Result<(), Fail> {
    let alloc = rt.alloc();
    let page = serve_page(alloc, PAGE.as_bytes())?;
    let given = replies(alloc, 1)?;
    let fail_at = vec![in alloc; 2u64; 1]?;
    let mut end = HostEnd::new(alloc, page)?;
    let mut peer = SurePeer::new(alloc, given, 9);
    let mut out = MemSink::new(alloc, fail_at);
    let ending = talk(&mut end, &mut peer, &mut out);
    assert_eq!(rt; ending, Err(Stop::OutputFailed));
    assert_eq!(rt; out.bytes(), b"1: error 0\n".as_slice());
    Ok(())
}
