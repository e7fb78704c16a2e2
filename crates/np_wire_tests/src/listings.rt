//! The listing of a file of messages.
use np_end_stops::Stop;
use np_ports::{MemFiles, MemSink, SureFiles, SureSink};
use np_show::show;
use std::alloc::Global;
use std::test::Fail;

const CODE: [u8; 9] = [0, 0, 0, 5, 0x45, 1, 0, 0, 0];

/// A file of this many messages of nine bytes each.
fn codes(alloc: Global, count: u16) -> Result<Vec<(String, Vec<u8>)>, Fail> {
    let mut content = Vec::new(alloc);
    for _ in 0..count {
        content.extend_from_slice(&CODE)?;
    }
    let name = String::from_str(alloc, "f")?;
    let mut entries = Vec::new(alloc);
    entries.push((name, content))?;
    Ok(entries)
}

#[test]
fn two_messages_are_listed(rt: HostRuntime) -> Result<(), Fail> {
    let alloc = rt.alloc();
    let entries = codes(alloc, 2)?;
    let mut files = SureFiles::new(alloc, entries);
    let mut out = SureSink::new(alloc);
    let status = show(alloc, "f", &mut files, &mut out);
    assert_eq!(rt; status, Ok(0));
    assert_eq!(rt; out.bytes(), b"0 69 1 0 5\n9 69 1 0 5\nend 0\n".as_slice());
    Ok(())
}

#[test]
fn the_second_read_fails(rt: HostRuntime) -> Result<(), Fail> {
    let alloc = rt.alloc();
    let entries = codes(alloc, 1000)?;
    let fail_at = vec![in alloc; 2u64; 1]?;
    let mut files = MemFiles::new(alloc, entries, fail_at);
    let mut out = SureSink::new(alloc);
    let status = show(alloc, "f", &mut files, &mut out);
    assert_eq!(rt; status, Ok(4));
    // 4,096 bytes are 455 messages and a byte.
    assert!(rt; out.bytes().ends_with(b"\n4086 69 1 0 5\nend 4\n"));
    Ok(())
}

#[test]
fn the_second_write_fails(rt: HostRuntime) -> Result<(), Fail> {
    let alloc = rt.alloc();
    let entries = codes(alloc, 1000)?;
    let fail_at = vec![in alloc; 2u64; 1]?;
    let mut files = SureFiles::new(alloc, entries);
    let mut out = MemSink::new(alloc, fail_at);
    let status = show(alloc, "f", &mut files, &mut out);
    assert_eq!(rt; status, Err(Stop::OutputFailed));
    Ok(())
}
