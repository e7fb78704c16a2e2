//! Measures the codec: encodes or decodes one message many times, or copies its bytes. It prints nothing; benchmarks/wire
//! runs it and reports how long each took.
#![tactic(auto)]

mod messages;
mod work;

use crate::messages::{largest, small};
use crate::work::{copy, decode, encode_again};
use np_values::NoMemory;
use std::alloc::Global;
use std::process::ExitCode;
use std::{env, io};

/// The words after the program's name.
fn command_words(rt: &HostRuntime, alloc: Global) -> io::Result<Vec<String>> {
    let mut words = Vec::new(alloc);
    for word in env::args(rt)?.skip(1) {
        words.push(word)?;
    }
    Ok(words)
}

/// The bytes of the message of this name; none for another name.
fn message_bytes(alloc: Global, name: &str) -> Result<Option<Vec<u8>>, NoMemory> {
    match name {
        "small" => Ok(Some(small(alloc)?)),
        "largest" => Ok(Some(largest(alloc)?)),
        _ => Ok(None),
    }
}

/// Does that many times what the words say, `encode`, `decode` or `copy`, with `small` or `largest`; the status is 2 where they say nothing else.
fn run(alloc: Global, words: &[String]) -> Result<u8, NoMemory> {
    let [what, name, times] = words else {
        return Ok(2);
    };
    let Ok(times) = times.as_str().parse::<u32>() else {
        return Ok(2);
    };
    let Some(bytes) = message_bytes(alloc, name.as_str())? else {
        return Ok(2);
    };
    match what.as_str() {
        "encode" => encode_again(alloc, &bytes, times),
        "decode" => decode(alloc, &bytes, times),
        "copy" => copy(alloc, &bytes, times),
        _ => Ok(2),
    }
}

fn main(rt: HostRuntime) -> ExitCode {
    let Ok(words) = command_words(&rt, rt.alloc()) else {
        return ExitCode::from(8);
    };
    match run(rt.alloc(), &words) {
        Ok(status) => ExitCode::from(status),
        Err(NoMemory) => ExitCode::from(8),
    }
}
