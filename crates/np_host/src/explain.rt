//! What np_host says on standard error: its usage, and for some statuses the file or program concerned and the cause.

use crate::words::{CommandWords, host_command};
use np_end_stops::exit_status;
use np_values::{NoMemory, push_quoted};
use std::alloc::Global;

const USAGE: &str =
    "np_host runs a page over a plug-in program that it starts in another process.\n\
    \n\
    usage:\n\
    \x20 np_host run PAGE PROGRAM [ARG..]    run the page script PAGE over PROGRAM (at most 16 ARGs)\n\
    \x20 np_host check page|plugin FILE      print the canonical text of a script, or its first error\n\
    \x20 np_host show FILE                   list the messages in captured wire bytes\n\
    \n\
    A word that begins with - is refused unless a word -- stands before it. PROGRAM is often np_plug:\n\
    \x20 np_host run -- page.txt np_plug plugin.txt notes.txt\n\
    docs/PROGRAMS.md lists every status and end line.\n";

/// Appends the sentence of a status: `np_host: status S: `, what comes before the name, the name in quotes, and the rest.
fn push_sentence(
    alloc: Global,
    status: u8,
    name: &str,
    (before, after): (&str, &str),
) -> Result<Vec<u8>, NoMemory> {
    let head = format!(in alloc; "np_host: status {status}: {before} ")?;
    let mut sentence = head.as_bytes().to_vec(alloc)?;
    push_quoted(&mut sentence, name.as_bytes())?;
    sentence.extend_from_slice(after.as_bytes())?;
    sentence.push(b'\n')?;
    Ok(sentence)
}

/// What is said of a status that concerns the file.
fn of_file(status: u8) -> Option<(&'static str, &'static str)> {
    match status {
        exit_status::BAD_SCRIPT => Some((
            "the script",
            " was refused; the end line names its first bad line and the rule, or says unbuilt where the script is \
            valid but has a line that run doesn't support yet",
        )),
        exit_status::FILE_FAILED => Some((
            "the file",
            " could not be read; check its name and its permissions",
        )),
        _ => None,
    }
}

/// What is said of a status that concerns the program, or else the file of wire bytes.
fn of_program(status: u8, is_run: bool) -> Option<(&'static str, &'static str)> {
    match status {
        exit_status::REFUSED if is_run => Some((
            "the program",
            " sent bytes that the host refused; the end line names the byte, the rule and its two numbers",
        )),
        exit_status::REFUSED => Some((
            "the file",
            " has bytes that aren't messages; the end line names the byte, the rule and its two numbers",
        )),
        exit_status::NOT_STARTED => Some((
            "the program",
            " could not be started; check its path and that it may be executed",
        )),
        _ => None,
    }
}

/// The sentence of a run, whose page and program these words begin with.
fn run_sentence(alloc: Global, words: &[String], status: u8) -> Result<Vec<u8>, NoMemory> {
    let [page, program, ..] = words else {
        return Ok(Vec::new(alloc));
    };
    if let Some(parts) = of_file(status) {
        return push_sentence(alloc, status, page.as_str(), parts);
    }
    match of_program(status, true) {
        Some(parts) => push_sentence(alloc, status, program.as_str(), parts),
        None => Ok(Vec::new(alloc)),
    }
}

/// The sentence of a command that reads one file.
fn file_sentence(alloc: Global, file: &str, status: u8) -> Result<Vec<u8>, NoMemory> {
    if let Some(parts) = of_file(status) {
        return push_sentence(alloc, status, file, parts);
    }
    match of_program(status, false) {
        Some(parts) => push_sentence(alloc, status, file, parts),
        None => Ok(Vec::new(alloc)),
    }
}

/// What np_host says on standard error at a status whatever the words are: its usage, or a sentence without a name; empty at the
/// other statuses. It takes no memory. (This project's own.)
pub fn fixed_text(status: u8) -> &'static str {
    match status {
        exit_status::USAGE => USAGE,
        exit_status::NO_MEMORY => "np_host: status 8: memory ran out\n",
        exit_status::OUTPUT_FAILED => {
            "np_host: status 10: standard output could not be written; is it closed, or its disk full?\n"
        }
        _ => "",
    }
}

/// The sentence that names the file or program which is the cause of this status of a run with these words; empty where
/// none is. An `Err` means that memory ran out. (This project's own.)
pub fn sentence(alloc: Global, words: &[String], status: u8) -> Result<Vec<u8>, NoMemory> {
    match host_command(alloc, words)? {
        Some(CommandWords::Run(plain)) => run_sentence(alloc, plain.as_slice(), status),
        Some(CommandWords::Check(_, file)) => file_sentence(alloc, file.as_str(), status),
        Some(CommandWords::Show(file)) => file_sentence(alloc, file.as_str(), status),
        None => Ok(Vec::new(alloc)),
    }
}
