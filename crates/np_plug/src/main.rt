//! The plug-in program: serves the page at the other end of its standard input and output.
#![tactic(auto)]

mod explain;
mod plug;
mod session;

use crate::explain::{fixed_text, sentence};
use crate::plug::plug_main;
use np_end_stops::exit_status;
use np_ports::{FileSink, HostFiles, StdPeer};
use std::alloc::Global;
use std::io::Write;
use std::process::ExitCode;
use std::{env, io};

/// The words after the program's name.
fn command_words(rt: &HostRuntime, alloc: Global) -> io::Result<Vec<String>> {
    let mut words = Vec::new(alloc);
    for word in env::args(rt)?.skip(1) {
        words.push(word)?;
    }
    Ok(words)
}

/// The words; none where one isn't text, so that such a command line is refused as any other that has
/// the wrong form. An `Err` means that memory ran out.
fn words_or_none(rt: &HostRuntime, alloc: Global) -> Result<Vec<String>, io::ErrorKind> {
    match command_words(rt, alloc) {
        Ok(words) => Ok(words),
        Err(error) => match error.kind() {
            io::ErrorKind::OutOfMemory => Err(io::ErrorKind::OutOfMemory),
            _ => Ok(Vec::new(alloc)),
        },
    }
}

/// The name of the notes, the second word; without one it is empty, and no file is made.
fn notes_name(alloc: Global, words: &[String]) -> Result<String, io::ErrorKind> {
    let name = match words {
        [_, notes, ..] => notes.as_str(),
        _ => "",
    };
    String::from_str(alloc, name).map_err(|_| io::ErrorKind::OutOfMemory)
}

/// Runs the program over the platform's streams and files, and answers its status. An `Err` means that memory ran out.
fn run(rt: HostRuntime, alloc: Global, words: &[String]) -> Result<u8, io::ErrorKind> {
    let name = notes_name(alloc, words)?;
    let mut peer = StdPeer::new(rt.stdin(), rt.stdout());
    let mut files = HostFiles::new(rt, alloc);
    let mut notes = FileSink::new(rt, name);
    Ok(plug_main(alloc, words, &mut peer, &mut files, &mut notes))
}

/// Says on standard error what a status means. Nothing more can be done where that fails.
fn say_why(rt: HostRuntime, alloc: Global, words: &[String], status: u8) {
    let mut out = rt.stderr();
    let _ = out.write_all(fixed_text(status).as_bytes());
    if let Ok(text) = sentence(alloc, words, status) {
        let _ = out.write_all(&text);
    }
}

fn main(rt: HostRuntime) -> ExitCode {
    let alloc = rt.alloc();
    let status = match words_or_none(&rt, alloc) {
        Ok(words) => {
            let status = run(rt, alloc, &words).unwrap_or(exit_status::NO_MEMORY);
            say_why(rt, alloc, &words, status);
            status
        }
        Err(_) => {
            say_why(rt, alloc, &[], exit_status::NO_MEMORY);
            exit_status::NO_MEMORY
        }
    };
    ExitCode::from(status)
}
