//! A peer at the other end of a reader and a writer.

ghost use Rattle.std.specs.Prelude.{◌≡◌, ◌≤◌, ◌<◌, length, IfOk, true, false, None, Err};
ghost use Rattle.std.specs.Io.KnownBytes.{ReadConsumes, WriteAppends};
ghost use Rattle.np_ports.specs.declared.error.PortError.TheVariants.{Failed};
ghost use Rattle.np_ports.specs.Causes.{HasCause, counted};
ghost use Rattle.np_ports.specs.Peer.{EndsAt};
ghost use Rattle.np_ports.specs.Adapters.{std_ended, std_start_faults, std_pipe_faults};

use crate::faults::{fail, refuse};
use crate::{Peer, PortError};
use std::io::{Read, Write};

/// The program at the other end of a reader and a writer, with no buffer: for a program that another one started,
/// standard input and output. It is never started: a start fails and is counted. A write to a pipe whose reader has
/// gone fails, since a program starts with SIGPIPE ignored. As a peer it reports nothing of the bytes; what the reader
/// and the writer tell of them, its calls keep. This project's own.
#[derive(Drop)]
pub struct StdPeer<I: Read + Drop, O: Write + Drop> {
    input: I,
    output: O,
    ended: bool,
    start_faults: u64,
    pipe_faults: u64,
}

impl<I: Read + Drop, O: Write + Drop> StdPeer<I, O> {
    /// The other end, with no failure yet.
    pub fn new(input: I, output: O) -> StdPeer<I, O>
        ensures input { result.input ≡ input }
        ensures output { result.output ≡ output }
        ensures ended { std_ended result ≡ false }
        ensures start_faults { std_start_faults result ≡ 0 }
        ensures pipe_faults { std_pipe_faults result ≡ 0 }
    {
        StdPeer {
            input,
            output,
            ended: false,
            start_faults: 0,
            pipe_faults: 0,
        }
    }
}

impl<I: Read + Drop, O: Write + Drop> Peer for StdPeer<I, O> {
    ghost known = { λ p. None };

    ghost has_ended = { λ p. std_ended p };

    ghost start_faults = { λ p. std_start_faults p };

    ghost pipe_faults = { λ p. std_pipe_faults p };

    fn start(&mut self, _words: &[String]) -> Result<(), PortError>
        ensures refused { result ≡ Err Failed }
        ensures cause { HasCause (std_start_faults self.old) (std_start_faults self.new) result }
        ensures count { std_start_faults self.new ≡ counted (std_start_faults self.old) result }
        ensures pipe_faults { std_pipe_faults self.new ≡ std_pipe_faults self.old }
        ensures ended { std_ended self.new ≡ std_ended self.old }
    {
        fail(&mut self.start_faults)
    }

    fn read(&mut self, buf: &mut [u8]) -> Result<usize, PortError>
        requires { 0 < length buf.old }
        ensures bound { IfOk result (λ n. n ≤ length buf.new) }
        ensures cause { HasCause (std_pipe_faults self.old) (std_pipe_faults self.new) result }
        ensures count { std_pipe_faults self.new ≡ counted (std_pipe_faults self.old) result }
        ensures start_faults { std_start_faults self.new ≡ std_start_faults self.old }
        ensures ended { EndsAt (std_ended self.old) (std_ended self.new) result }

        // What is given is what the reader loses, and the writer stays. After the end the reader stays too.
        ensures bytes { std_ended self.old ≡ false → ReadConsumes (I.remaining self.old.input) (I.remaining self.new.input) result buf.new }
        ensures over { std_ended self.old ≡ true → self.new ≡ self.old }
        ensures output { self.new.output ≡ self.old.output }
    {
        if self.ended {
            return Ok(0);
        }
        match self.input.read(buf) {
            Ok(n) => {
                self.ended = n == 0;
                Ok(n)
            }
            Err(e) => refuse(&mut self.pipe_faults, e),
        }
    }

    fn write(&mut self, bytes: &[u8]) -> Result<usize, PortError>
        requires { 0 < length bytes.now }
        ensures bound { IfOk result (λ n. (0 < n) × (n ≤ length bytes.now)) }
        ensures cause { HasCause (std_pipe_faults self.old) (std_pipe_faults self.new) result }
        ensures count { std_pipe_faults self.new ≡ counted (std_pipe_faults self.old) result }
        ensures start_faults { std_start_faults self.new ≡ std_start_faults self.old }
        ensures ended { std_ended self.new ≡ std_ended self.old }

        // What is counted is what the writer got, and the reader stays.
        ensures bytes { WriteAppends (O.contents self.old.output) (O.contents self.new.output) result bytes.now }
        ensures input { self.new.input ≡ self.old.input }
    {
        match self.output.write(bytes) {
            Ok(0) => fail(&mut self.pipe_faults),
            Ok(n) => Ok(n),
            Err(e) => refuse(&mut self.pipe_faults, e),
        }
    }
}
