//! A peer that is a program of the platform.

ghost use Rattle.std.specs.Prelude.{◌≡◌, ◌≤◌, ◌<◌, ◌∷◌, map, string_bytes, true, false, None, Err, is_some, length, IfOk, OnOk, OnErr};
ghost use Rattle.std.specs.Process.{command_program, command_args};
ghost use Rattle.np_ports.specs.declared.error.PortError.TheVariants.{Failed};
ghost use Rattle.np_ports.specs.Causes.{HasCause, counted};
ghost use Rattle.np_ports.specs.Peer.{EndsAt};
ghost use Rattle.np_ports.specs.Adapters.{IsShut, child_started, child_is_open, child_ended, child_start_faults, child_pipe_faults};

use crate::faults::{fail, refuse};
use crate::{Peer, PortError};
use std::alloc::Global;
use std::fs::Files as FileSystem;
use std::io;
use std::io::{ErrorKind, PipeWriter, Read, Write};
use std::process::{Child, Command, ExitStatus, OpenProcess, Processes, Stdio};
use std::rt::Clock;
use std::time::Duration;

// How often `close` asks whether the program has ended, and how long it waits in between, in milliseconds.
const TRIES: u32 = 200;

const PAUSE: u64 = 10;

/// A program that runs, and the pipe to its standard input. The pipe is made here and not by the standard library, whose own writes to a child
/// block a signal before each call and allow it again afterwards: three more system calls. The runtime ignores that signal.
#[derive(Drop)]
pub struct Started<P: OpenProcess> {
    process: Child<P>,
    input: PipeWriter,
}

/// A started program's pipes: reads give what it prints, writes go to its standard input, and its standard
/// error is this program's. It reports nothing of the bytes. A call before a start, and a start after one that
/// was done, fail. This project's own.
#[derive(Drop)]
pub struct ChildPeer<R: Processes + FileSystem + Clock + Drop> {
    runtime: R,
    alloc: Global,
    child: Option<Started<R::Started>>,
    started: bool,
    ended: bool,
    start_faults: u64,
    pipe_faults: u64,
}

impl<R: Processes + FileSystem + Clock + Drop> ChildPeer<R> {
    /// A peer that isn't started yet.
    pub fn new(runtime: R, alloc: Global) -> ChildPeer<R>
        ensures started { child_started result ≡ false }
        ensures open { child_is_open result ≡ false }
        ensures ended { child_ended result ≡ false }
        ensures start_faults { child_start_faults result ≡ 0 }
        ensures pipe_faults { child_pipe_faults result ≡ 0 }
    {
        ChildPeer {
            runtime,
            alloc,
            child: None,
            started: false,
            ended: false,
            start_faults: 0,
            pipe_faults: 0,
        }
    }

    /// Closes both pipes, and gives the program two seconds to end; a program that takes longer is left
    /// running, and answers `None`. Each later call fails, but for reads where one has answered the end.
    pub fn close(&mut self) -> Option<ExitStatus>
        ensures closed { child_is_open self.new ≡ false }
        ensures idle { child_is_open self.old ≡ false → result ≡ None }
        ensures started { child_started self.new ≡ child_started self.old }
        ensures ended { child_ended self.new ≡ child_ended self.old }
        ensures start_faults { child_start_faults self.new ≡ child_start_faults self.old }
        ensures pipe_faults { child_pipe_faults self.new ≡ child_pipe_faults self.old }
    {
        let Started { mut process, input } = self.child.take()?;
        drop(input);
        drop(process.stdout.take());
        for _ in 0..TRIES {
            if let Ok(Some(status)) = process.try_wait() {
                return Some(status);
            }
            std::thread::sleep(&self.runtime, Duration::from_millis(PAUSE));
        }
        None
    }

    fn spawn(&self, words: &[String]) -> io::Result<Started<R::Started>> {
        let mut command = command_of(self.alloc, words)?;
        let (output, input) = io::pipe(&self.runtime)?;
        command.stdin(Stdio::from(output));
        command.stdout(Stdio::piped());
        let process = command.spawn(&self.runtime)?;
        Ok(Started { process, input })
    }
}

/// The command of a program and its arguments.
fn command_of(alloc: Global, words: &[String]) -> io::Result<Command>
    ensures words { IfOk result (λ command. command_program command ∷ command_args command ≡ map (λ w. string_bytes w) words.now) }
{
    let Some((program, arguments)) = words.split_first() else {
        return Err(io::Error::from(ErrorKind::InvalidInput));
    };
    let mut command = Command::new(alloc, program.as_str())?;
    for word in arguments {
        command.arg(word.as_str())?;
    }
    Ok(command)
}

fn read_output<P: OpenProcess>(child: &mut Option<Started<P>>, buf: &mut [u8]) -> io::Result<usize>
    ensures bound { IfOk result (λ n. n ≤ length buf.new) }
    ensures shut { is_some child.old ≡ false → IsShut result }
    ensures open { is_some child.new ≡ is_some child.old }
{
    if let Some(child) = child {
        if let Some(output) = &mut child.process.stdout {
            return output.read(buf);
        }
    }
    Err(io::Error::from(ErrorKind::NotConnected))
}

fn write_input<P: OpenProcess>(child: &mut Option<Started<P>>, bytes: &[u8]) -> io::Result<usize>
    ensures bound { IfOk result (λ n. n ≤ length bytes.now) }
    ensures shut { is_some child.old ≡ false → IsShut result }
    ensures open { is_some child.new ≡ is_some child.old }
{
    if let Some(child) = child {
        return child.input.write(bytes);
    }
    Err(io::Error::from(ErrorKind::NotConnected))
}

impl<R: Processes + FileSystem + Clock + Drop> Peer for ChildPeer<R> {
    ghost known = { λ p. None };

    ghost has_ended = { λ p. child_ended p };

    ghost start_faults = { λ p. child_start_faults p };

    ghost pipe_faults = { λ p. child_pipe_faults p };

    fn start(&mut self, words: &[String]) -> Result<(), PortError>
        requires { 0 < length words.now }
        ensures cause { HasCause (child_start_faults self.old) (child_start_faults self.new) result }
        ensures count { child_start_faults self.new ≡ counted (child_start_faults self.old) result }
        ensures pipe_faults { child_pipe_faults self.new ≡ child_pipe_faults self.old }
        ensures ended { child_ended self.new ≡ child_ended self.old }

        // It is started once.
        ensures open { OnOk result (child_is_open self.new ≡ true) }
        ensures started { OnOk result (child_started self.new ≡ true) }
        ensures again { child_started self.old ≡ true → result ≡ Err Failed }
        ensures kept { OnErr result (child_started self.new ≡ child_started self.old) }
        ensures as_before { OnErr result (child_is_open self.new ≡ child_is_open self.old) }
    {
        if self.started {
            return fail(&mut self.start_faults);
        }
        match self.spawn(words) {
            Ok(child) => {
                self.child = Some(child);
                self.started = true;
                Ok(())
            }
            Err(e) => refuse(&mut self.start_faults, e),
        }
    }

    fn read(&mut self, buf: &mut [u8]) -> Result<usize, PortError>
        requires { 0 < length buf.old }
        ensures bound { IfOk result (λ n. n ≤ length buf.new) }
        ensures cause { HasCause (child_pipe_faults self.old) (child_pipe_faults self.new) result }
        ensures count { child_pipe_faults self.new ≡ counted (child_pipe_faults self.old) result }
        ensures start_faults { child_start_faults self.new ≡ child_start_faults self.old }
        ensures ended { EndsAt (child_ended self.old) (child_ended self.new) result }

        ensures shut { child_is_open self.old ≡ false → child_ended self.old ≡ false → result ≡ Err Failed }
        ensures open { child_is_open self.new ≡ child_is_open self.old }
        ensures started { child_started self.new ≡ child_started self.old }
    {
        if self.ended {
            return Ok(0);
        }
        match read_output(&mut self.child, buf) {
            Ok(n) => {
                self.ended = n == 0;
                Ok(n)
            }
            Err(e) => refuse(&mut self.pipe_faults, e),
        }
    }

    fn write(&mut self, bytes: &[u8]) -> Result<usize, PortError>
        requires { 0 < length bytes.now }
        ensures bound { IfOk result (λ n. (0 < n) × (n ≤ length bytes.now)) }
        ensures cause { HasCause (child_pipe_faults self.old) (child_pipe_faults self.new) result }
        ensures count { child_pipe_faults self.new ≡ counted (child_pipe_faults self.old) result }
        ensures start_faults { child_start_faults self.new ≡ child_start_faults self.old }
        ensures ended { child_ended self.new ≡ child_ended self.old }

        ensures shut { child_is_open self.old ≡ false → result ≡ Err Failed }
        ensures open { child_is_open self.new ≡ child_is_open self.old }
        ensures started { child_started self.new ≡ child_started self.old }
    {
        match write_input(&mut self.child, bytes) {
            Ok(0) => fail(&mut self.pipe_faults),
            Ok(n) => Ok(n),
            Err(e) => refuse(&mut self.pipe_faults, e),
        }
    }
}
