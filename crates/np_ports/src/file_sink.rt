//! A sink that is a file.

ghost use Rattle.std.specs.Prelude.{◌≡◌, ◌<◌, ◌≤◌, true, false, None, length, IfOk, OnOk};
ghost use Rattle.np_ports.specs.Causes.{HasCause, counted, counted_memory};
ghost use Rattle.np_ports.specs.Adapters.{FileTook, file_sink_is_open, file_sink_faults, file_sink_memory_faults};

use crate::faults::{fail, refuse_counted};
use crate::{PortError, Sink};
use std::io::Write;
use std::{fs, io, rt};

/// A file of the platform, by its path. It is made at the first write, in place of an old one, and stays
/// open from then on. It reports nothing of the bytes. This project's own.
#[derive(Drop)]
pub struct FileSink<R: rt::Files + Drop> {
    runtime: R,
    name: String,
    open: Option<R::File>,
    faults: u64,
    memory_faults: u64,
}

impl<R: rt::Files + Drop> FileSink<R> {
    /// The named file, not made yet.
    pub fn new(runtime: R, name: String) -> FileSink<R>
        ensures open { file_sink_is_open result ≡ false }
        ensures faults { file_sink_faults result ≡ 0 }
        ensures memory_faults { file_sink_memory_faults result ≡ 0 }
    {
        FileSink {
            runtime,
            name,
            open: None,
            faults: 0,
            memory_faults: 0,
        }
    }

    // A file that was made stays open, also where the write failed: what it holds is kept.
    fn write_some(&mut self, bytes: &[u8]) -> io::Result<usize>
        ensures bound { IfOk result (λ n. n ≤ length bytes.now) }
        ensures bytes { FileTook R.File.contents self.old.«open» self.new.«open» result bytes.now }
        ensures faults { file_sink_faults self.new ≡ file_sink_faults self.old }
        ensures memory_faults { file_sink_memory_faults self.new ≡ file_sink_memory_faults self.old }
        ensures open { OnOk result (file_sink_is_open self.new ≡ true) }
        ensures kept { file_sink_is_open self.old ≡ true → file_sink_is_open self.new ≡ true }
    {
        let mut file = match self.open.take() {
            Some(file) => file,
            None => fs::create(&self.runtime, self.name.as_str())?,
        };
        let written = file.write(bytes);
        self.open = Some(file);
        written
    }
}

impl<R: rt::Files + Drop> Sink for FileSink<R> {
    ghost taken = { λ s. None };

    ghost faults = { λ s. file_sink_faults s };

    ghost memory_faults = { λ s. file_sink_memory_faults s };

    fn write(&mut self, bytes: &[u8]) -> Result<usize, PortError>
        requires { 0 < length bytes.now }
        ensures bound { IfOk result (λ n. (0 < n) × (n ≤ length bytes.now)) }
        ensures cause { HasCause (file_sink_faults self.old) (file_sink_faults self.new) result }
        ensures count { file_sink_faults self.new ≡ counted (file_sink_faults self.old) result }
        ensures memory_count { file_sink_memory_faults self.new ≡ counted_memory (file_sink_memory_faults self.old) result }

        // It stays open, also where a write failed.
        ensures open { OnOk result (file_sink_is_open self.new ≡ true) }
        ensures kept { file_sink_is_open self.old ≡ true → file_sink_is_open self.new ≡ true }
    {
        match self.write_some(bytes) {
            Ok(0) => fail(&mut self.faults),
            Ok(n) => Ok(n),
            Err(e) => refuse_counted(&mut self.faults, &mut self.memory_faults, e),
        }
    }
}
