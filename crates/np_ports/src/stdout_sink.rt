//! A sink over a writer.

ghost use Rattle.std.specs.Prelude.{◌≡◌, ◌≤◌, ◌<◌, length, IfOk, None};
ghost use Rattle.std.specs.Io.KnownBytes.{WriteAppends};
ghost use Rattle.np_ports.specs.Causes.{HasCause, counted, counted_memory};
ghost use Rattle.np_ports.specs.Adapters.{stdout_faults, stdout_memory_faults};

use crate::faults::{fail, refuse_counted};
use crate::{PortError, Sink};
use std::io::Write;

/// A writer, for a program its standard output, with no buffer. A write to a pipe whose reader has gone fails, since a
/// program starts with SIGPIPE ignored. As a sink it reports nothing of the bytes; what the writer tells of them, `write`
/// keeps. This project's own.
#[derive(Drop)]
pub struct StdoutSink<W: Write + Drop> {
    stdout: W,
    faults: u64,
    memory_faults: u64,
}

impl<W: Write + Drop> StdoutSink<W> {
    /// Standard output, with no failure yet.
    pub fn new(stdout: W) -> StdoutSink<W>
        ensures stdout { result.stdout ≡ stdout }
        ensures faults { stdout_faults result ≡ 0 }
        ensures memory_faults { stdout_memory_faults result ≡ 0 }
    {
        StdoutSink {
            stdout,
            faults: 0,
            memory_faults: 0,
        }
    }
}

impl<W: Write + Drop> Sink for StdoutSink<W> {
    ghost taken = { λ s. None };

    ghost faults = { stdout_faults };

    ghost memory_faults = { stdout_memory_faults };

    fn write(&mut self, bytes: &[u8]) -> Result<usize, PortError>
        requires { 0 < length bytes.now }
        ensures bound { IfOk result (λ n. (0 < n) × (n ≤ length bytes.now)) }
        ensures cause { HasCause (stdout_faults self.old) (stdout_faults self.new) result }
        ensures count { stdout_faults self.new ≡ counted (stdout_faults self.old) result }
        ensures memory_count { stdout_memory_faults self.new ≡ counted_memory (stdout_memory_faults self.old) result }

        // What is counted is what the writer got.
        ensures bytes { WriteAppends (W.contents self.old.stdout) (W.contents self.new.stdout) result bytes.now }
    {
        match self.stdout.write(bytes) {
            Ok(0) => fail(&mut self.faults),
            Ok(n) => Ok(n),
            Err(e) => refuse_counted(&mut self.faults, &mut self.memory_faults, e),
        }
    }
}
