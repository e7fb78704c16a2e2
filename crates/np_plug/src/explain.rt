//! What np_plug says on standard error: its usage, and for some statuses the file concerned and the cause.

use np_end_stops::exit_status;
use np_values::{NoMemory, push_quoted};
use std::alloc::Global;

const USAGE: &str =
    "np_plug serves a page at the other end of its standard input and output; np_host starts it.\n\
    \n\
    usage:\n\
    \x20 np_plug SCRIPT NOTES    serve the page with the plug-in script SCRIPT, and write its journal to NOTES\n\
    \n\
    Try it: np_host run -- page.txt np_plug plugin.txt notes.txt\n\
    docs/PROGRAMS.md lists every status and end line.\n";

/// What is said of a status: what comes before the name of the file, and after it. A `true` is of NOTES, else SCRIPT.
fn parts(status: u8) -> Option<(bool, &'static str, &'static str)> {
    match status {
        exit_status::BAD_SCRIPT => Some((
            false,
            "the script",
            " was refused; the last line of the notes names its first bad line and the rule, or says unbuilt where the \
            script is valid but has a line that isn't supported yet",
        )),
        exit_status::FILE_FAILED => Some((
            false,
            "the script",
            " could not be read; check its name and its permissions",
        )),
        exit_status::REFUSED => Some((
            true,
            "the host sent bytes that were refused; the last line of",
            " names the byte, the rule and its two numbers",
        )),
        exit_status::OUTPUT_FAILED => Some((
            true,
            "the notes",
            " could not be written; check the name, the folder and the disk",
        )),
        _ => None,
    }
}

/// What np_plug says on standard error at a status whatever the words are: its usage, or that memory ran out; empty at the other
/// statuses. It takes no memory. (This project's own.)
pub fn fixed_text(status: u8) -> &'static str {
    match status {
        exit_status::USAGE => USAGE,
        exit_status::NO_MEMORY => "np_plug: status 8: memory ran out\n",
        _ => "",
    }
}

/// The sentence that names the file which is the cause of this status of a run with these words; empty where none is. An `Err`
/// means that memory ran out. (This project's own.)
pub fn sentence(alloc: Global, words: &[String], status: u8) -> Result<Vec<u8>, NoMemory> {
    let [script, notes] = words else {
        return Ok(Vec::new(alloc));
    };
    let Some((is_notes, before, after)) = parts(status) else {
        return Ok(Vec::new(alloc));
    };
    let name = if is_notes { notes } else { script };
    let head = format!(in alloc; "np_plug: status {status}: {before} ")?;
    let mut sentence = head.as_bytes().to_vec(alloc)?;
    push_quoted(&mut sentence, name.as_str().as_bytes())?;
    sentence.extend_from_slice(after.as_bytes())?;
    sentence.push(b'\n')?;
    Ok(sentence)
}
