//! The words of the host's command line.

ghost use Rattle.std.specs.Prelude.{◌≡◌, ◌≤◌, ◌++◌, length, map, string_bytes, OnOk, IfOk};
ghost use Rattle.np_host.specs.Words.{is_option as is_option_word, plain_words as plain_words_of, side_named as side_of_word, host_command as command_in, run_of, check_of, show_of, command_of, texts, GivesWords, GivesRun, GivesCheck, GivesShow, GivesCommand};

use np_values::{NoMemory, Side};
use std::alloc::Global;

fn is_option(word: &str) -> bool
    ensures value { result ≡ is_option_word word.now }
{
    let bytes = word.as_bytes();
    bytes.len() >= 2 && bytes[0] == b'-'
}

/// Copies words to the end of a list.
fn copy_words(alloc: Global, copies: &mut Vec<String>, words: &[String]) -> Result<(), NoMemory>
    ensures copied { OnOk result (texts copies.new.items ≡ texts copies.old.items ++ texts words.now) }
{
    for word in words {
        copies.push(String::from_str(alloc, word.as_str())?)?;
    }
    Ok(())
}

/// The words without the first `--`; `None` where an option stands before it.
fn plain_words(alloc: Global, words: &[String]) -> Result<Option<Vec<String>>, NoMemory>
    ensures plain { IfOk result (λ plain. GivesWords plain words.now) }
{
    let mut plain = Vec::new(alloc);
    for (place, word) in words.iter().enumerate() {
        if word.as_str() == "--" {
            copy_words(alloc, &mut plain, &words[place + 1..])?;
            return Ok(Some(plain));
        }
        if is_option(word.as_str()) {
            return Ok(None);
        }
        plain.push(String::from_str(alloc, word.as_str())?)?;
    }
    Ok(Some(plain))
}

/// The page, the program and its arguments, in this order, of the words after `run`; `None` where they are
/// of another form.
fn run_words(alloc: Global, words: &[String]) -> Result<Option<Vec<String>>, NoMemory>
    ensures run { IfOk result (λ plain. GivesRun plain (command_of run_of (plain_words_of (texts words.now)))) }
{
    let plain = match plain_words(alloc, words)? {
        Some(plain) => plain,
        None => return Ok(None),
    };
    if plain.len() < 2 || plain.len() > 18 {
        return Ok(None);
    }
    Ok(Some(plain))
}

/// The side whose scripts a word names.
fn side_named(word: &str) -> Option<Side>
    ensures side { result ≡ side_of_word word.now }
{
    if word == "page" {
        return Some(Side::Page);
    }
    if word == "plugin" {
        return Some(Side::Plug);
    }
    None
}

/// The side and the file of the words after `check`; `None` where they are of another form.
fn check_words(alloc: Global, words: &[String]) -> Result<Option<(Side, String)>, NoMemory>
    ensures check { IfOk result (λ check. GivesCheck check (command_of check_of (plain_words_of (texts words.now)))) }
{
    let plain = match plain_words(alloc, words)? {
        Some(plain) => plain,
        None => return Ok(None),
    };
    let [kind, file] = plain.as_slice() else {
        return Ok(None);
    };
    let side = match side_named(kind.as_str()) {
        Some(side) => side,
        None => return Ok(None),
    };
    Ok(Some((side, String::from_str(alloc, file.as_str())?)))
}

/// The file of the words after `show`; `None` where they are of another form.
fn show_words(alloc: Global, words: &[String]) -> Result<Option<String>, NoMemory>
    ensures show { IfOk result (λ show. GivesShow show (command_of show_of (plain_words_of (texts words.now)))) }
{
    let plain = match plain_words(alloc, words)? {
        Some(plain) => plain,
        None => return Ok(None),
    };
    let [file] = plain.as_slice() else {
        return Ok(None);
    };
    Ok(Some(String::from_str(alloc, file.as_str())?))
}

/// What the words of the command line tell to do. (This project's own.)
#[derive(Drop)]
pub enum CommandWords {
    /// The page, the program and its arguments, in this order.
    Run(Vec<String>),
    /// The side that the script is of, and its file.
    Check(Side, String),
    /// The file of wire bytes.
    Show(String),
}

/// What `run PAGE PROGRAM ARG*`, `check page FILE`, `check plugin FILE` or `show FILE` tells to do; `None`
/// where the words are of another form.
pub fn host_command(alloc: Global, words: &[String]) -> Result<Option<CommandWords>, NoMemory>
    ensures command { IfOk result (λ command. GivesCommand command (command_in (texts words.now))) }
{
    let [command, rest @ ..] = words else {
        return Ok(None);
    };
    if command.as_str() == "run" {
        return match run_words(alloc, rest)? {
            Some(plain) => Ok(Some(CommandWords::Run(plain))),
            None => Ok(None),
        };
    }
    if command.as_str() == "check" {
        return match check_words(alloc, rest)? {
            Some((side, file)) => Ok(Some(CommandWords::Check(side, file))),
            None => Ok(None),
        };
    }
    if command.as_str() == "show" {
        return match show_words(alloc, rest)? {
            Some(file) => Ok(Some(CommandWords::Show(file))),
            None => Ok(None),
        };
    }
    Ok(None)
}
