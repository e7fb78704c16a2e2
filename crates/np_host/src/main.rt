//! The host program: runs a page over a plug-in program that it starts, or checks a script.
#![tactic(auto)]

mod check;
mod explain;
mod host;
mod session;
mod words;

use crate::explain::{fixed_text, sentence};
use crate::host::host_main;
use np_end_stops::exit_status;
use np_ports::{ChildPeer, HostFiles, StdoutSink};
use std::alloc::Global;
use std::io::Write;
use std::process::ExitCode;
use std::{env, io};

/// The words after the program's name.
fn command_words(rt: &HostRuntime, alloc: Global) -> io::Result<Vec<String>> {
    let mut words = Vec::new(alloc);
    for word in env::args(rt)?.skip(1) {
        words.push(word)?;
    }
    Ok(words)
}

/// The words; none where one isn't text, so that such a command line is refused as any other that has
/// the wrong form. An `Err` means that memory ran out.
fn words_or_none(rt: &HostRuntime, alloc: Global) -> Result<Vec<String>, io::ErrorKind> {
    match command_words(rt, alloc) {
        Ok(words) => Ok(words),
        Err(error) => match error.kind() {
            io::ErrorKind::OutOfMemory => Err(io::ErrorKind::OutOfMemory),
            _ => Ok(Vec::new(alloc)),
        },
    }
}

/// Says on standard error what a status means. Nothing more can be done where that fails.
fn say_why(rt: HostRuntime, alloc: Global, words: &[String], status: u8) {
    let mut out = rt.stderr();
    let _ = out.write_all(fixed_text(status).as_bytes());
    if let Ok(text) = sentence(alloc, words, status) {
        let _ = out.write_all(&text);
    }
}

/// Runs the host over the platform's streams, files and programs, and answers its status.
fn run(rt: HostRuntime, alloc: Global, words: &[String]) -> u8 {
    let mut peer = ChildPeer::new(rt, alloc);
    let mut files = HostFiles::new(rt, alloc);
    let mut out = StdoutSink::new(rt.stdout());
    let status = host_main(alloc, words, &mut peer, &mut files, &mut out);
    let _ = peer.close();
    status
}

fn main(rt: HostRuntime) -> ExitCode {
    let alloc = rt.alloc();
    let status = match words_or_none(&rt, alloc) {
        Ok(words) => {
            let status = run(rt, alloc, &words);
            say_why(rt, alloc, &words, status);
            status
        }
        Err(_) => {
            say_why(rt, alloc, &[], exit_status::NO_MEMORY);
            exit_status::NO_MEMORY
        }
    };
    ExitCode::from(status)
}
