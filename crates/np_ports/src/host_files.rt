//! The files of the platform.

ghost use Rattle.std.specs.Prelude.{◌≡◌, ◌≤◌, None, length, IfOk};
ghost use Rattle.np_ports.specs.Adapters.{ReadAt, host_faults};

use crate::faults::refuse;
use crate::{Files, PortError};
use std::alloc::Global;
use std::io::{Read, Seek, SeekFrom};
use std::{fs, io, rt};

/// The files of the platform, by their paths. The file that was read last stays open. It reports nothing of
/// the contents. This project's own.
#[derive(Drop)]
pub struct HostFiles<R: rt::Files + Drop> {
    runtime: R,
    alloc: Global,
    open: Option<(String, R::File)>,
    faults: u64,
}

impl<R: rt::Files + Drop> HostFiles<R> {
    /// The files, none of them open yet.
    pub fn new(runtime: R, alloc: Global) -> HostFiles<R>
        ensures { host_faults result ≡ 0 }
    {
        HostFiles {
            runtime,
            alloc,
            open: None,
            faults: 0,
        }
    }

    // The named file, which is the one that is open or is opened now.
    fn opened(&mut self, name: &str) -> io::Result<(String, R::File)>
        ensures { host_faults self.new ≡ host_faults self.old }
    {
        if let Some(last) = self.open.take() {
            if last.0.as_str() == name {
                return Ok(last);
            }
        }
        let file = fs::open(&self.runtime, name)?;
        Ok((String::from_str(self.alloc, name)?, file))
    }

    fn read_at(&mut self, name: &str, at: u64, buf: &mut [u8]) -> io::Result<usize>
        ensures bound { IfOk result (λ n. n ≤ length buf.new) }
        ensures there { IfOk result (λ n. ReadAt R.File.stream_position R.File.stream_bytes R.File.remaining self.new.«open» at n buf.new) }
        ensures faults { host_faults self.new ≡ host_faults self.old }
    {
        let mut file = self.opened(name)?;
        file.1.seek(SeekFrom::Start(at))?;
        let n = file.1.read(buf)?;
        self.open = Some(file);
        Ok(n)
    }
}

impl<R: rt::Files + Drop> Files for HostFiles<R> {
    ghost contents = { λ f. None };

    ghost failed_calls = { λ f. None };

    ghost faults = { λ f. host_faults f };

    fn read(&mut self, name: &str, at: u64, buf: &mut [u8]) -> Result<usize, PortError> {
        match self.read_at(name, at, buf) {
            Ok(n) => Ok(n),
            Err(e) => refuse(&mut self.faults, e),
        }
    }

    fn put(&mut self, name: &str, bytes: &[u8]) -> Result<(), PortError> {
        self.open = None;
        match fs::write(&self.runtime, name, bytes) {
            Ok(()) => Ok(()),
            Err(e) => refuse(&mut self.faults, e),
        }
    }
}
