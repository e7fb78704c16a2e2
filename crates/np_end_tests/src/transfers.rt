//! Whole transfers.
use np_ports::{SCRIPT_LIMIT, SureFiles, SurePeer, SureSink, print_all, read_script, send_all};
use std::test::Fail;

#[test]
fn bytes_are_printed(rt: HostRuntime) -> Result<(), Fail> {
    let mut out = SureSink::new(rt.alloc());
    print_all(&mut out, b"abc")?;
    assert_eq!(rt; out.bytes(), b"abc".as_slice());
    Ok(())
}

#[test]
fn bytes_are_sent(rt: HostRuntime) -> Result<(), Fail> {
    let alloc = rt.alloc();
    let mut peer = SurePeer::new(alloc, Vec::new(alloc), 1);
    send_all(&mut peer, b"xyz")?;
    assert_eq!(rt; peer.taken(), b"xyz".as_slice());
    Ok(())
}

#[test]
fn a_script_is_read_to_its_limit(rt: HostRuntime) -> Result<(), Fail> {
    let alloc = rt.alloc();
    let name = String::from_str(alloc, "p")?;
    let content = vec![in alloc; 7u8; 1_048_580]?;
    let mut entries = Vec::new(alloc);
    entries.push((name, content))?;
    let mut files = SureFiles::new(alloc, entries);
    let script = read_script(alloc, &mut files, "p")?;
    assert_eq!(rt; script.len(), SCRIPT_LIMIT);
    Ok(())
}
