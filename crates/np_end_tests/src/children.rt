//! Programs that are started as peers.
use crate::environment::reads;
use np_ports::{ChildPeer, Peer, PortError};
use std::alloc::Global;
use std::test::Fail;

fn words(alloc: Global, texts: &[&str]) -> Result<Vec<String>, Fail> {
    let mut words = Vec::new(alloc);
    for text in texts {
        let word = String::from_str(alloc, text)?;
        words.push(word)?;
    }
    Ok(words)
}

#[test]
fn cat_gives_back(rt: HostRuntime) -> Result<(), Fail> {
    let alloc = rt.alloc();
    let words = words(alloc, &["cat"])?;
    assert_eq!(rt; words.len(), 1);
    let mut cat = ChildPeer::new(rt, alloc);
    assert_eq!(rt; cat.write(b"ab"), Err(PortError::Failed));
    assert_eq!(rt; cat.start(&words), Ok(()));
    assert_eq!(rt; cat.write(b"ab"), Ok(2));
    reads(&rt, &mut cat, Ok(2));
    let status = cat.close().ok_or("cat runs on")?;
    assert_eq!(rt; status.code(), Some(0));
    Ok(())
}

#[test]
fn a_program_that_ended_takes_nothing(rt: HostRuntime) -> Result<(), Fail> {
    let alloc = rt.alloc();
    let words = words(alloc, &["sh", "-c", "exec <&-; echo a; exit 3"])?;
    assert_eq!(rt; words.len(), 3);
    let mut shell = ChildPeer::new(rt, alloc);
    assert_eq!(rt; shell.start(&words), Ok(()));
    reads(&rt, &mut shell, Ok(2));
    reads(&rt, &mut shell, Ok(0));
    assert_eq!(rt; shell.write(b"ab"), Err(PortError::Failed));
    let status = shell.close().ok_or("sh runs on")?;
    assert_eq!(rt; status.code(), Some(3));
    Ok(())
}

#[test]
fn no_such_program_is_started(rt: HostRuntime) -> Result<(), Fail> {
    let alloc = rt.alloc();
    let words = words(alloc, &["no such program"])?;
    assert_eq!(rt; words.len(), 1);
    let mut missing = ChildPeer::new(rt, alloc);
    assert_eq!(rt; missing.start(&words), Err(PortError::Failed));
    reads(&rt, &mut missing, Err(PortError::Failed));
    Ok(())
}
