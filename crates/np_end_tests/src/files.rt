//! Files that are read and written.
use crate::environment::{file_fails, file_has};
use np_ports::{FileSink, Files, HostFiles, PortError, Sink};
use std::test::Fail;
use std::{env, fs, process};

#[test]
fn host_files_are_read(rt: HostRuntime) -> Result<(), Fail> {
    let alloc = rt.alloc();
    let folder = env::temp_dir(&rt)?;
    let number = process::id(rt.process());
    let name = format!(in alloc; "{folder}/np_end_tests_{number}", folder = folder.display())?;
    let mut files = HostFiles::new(rt, alloc);
    file_fails(&rt, &mut files, &name);
    assert_eq!(rt; files.put(&name, b"abcdefghij"), Ok(()));
    file_has(&rt, &mut files, &name, 0, b"abcdefgh");
    file_has(&rt, &mut files, &name, 8, b"ij");
    file_has(&rt, &mut files, &name, 10, b"");
    assert_eq!(rt; files.put(&name, b"xyz"), Ok(()));
    file_has(&rt, &mut files, &name, 1, b"yz");
    fs::remove_file(&rt, &name)?;
    Ok(())
}

#[test]
fn a_file_is_made_at_its_first_write(rt: HostRuntime) -> Result<(), Fail> {
    let alloc = rt.alloc();
    let folder = env::temp_dir(&rt)?;
    let number = process::id(rt.process());
    let name = format!(in alloc;
        "{folder}/np_end_tests_sink_{number}",
        folder = folder.display()
    )?;
    fs::write(&rt, &name, b"an old file")?;
    let sink_name = String::from_str(alloc, &name)?;
    let mut sink = FileSink::new(rt, sink_name);
    let mut files = HostFiles::new(rt, alloc);
    file_has(&rt, &mut files, &name, 0, b"an old f");
    assert_eq!(rt; sink.write(b"abc"), Ok(3));
    assert_eq!(rt; sink.write(b"de"), Ok(2));
    file_has(&rt, &mut files, &name, 0, b"abcde");
    fs::remove_file(&rt, &name)?;
    Ok(())
}

#[test]
fn a_file_in_no_folder_is_not_made(rt: HostRuntime) -> Result<(), Fail> {
    let name = String::from_str(rt.alloc(), "/no such folder/file")?;
    let mut nowhere = FileSink::new(rt, name);
    assert_eq!(rt; nowhere.write(b"abc"), Err(PortError::Failed));
    Ok(())
}
