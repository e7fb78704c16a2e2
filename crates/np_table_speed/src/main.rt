//! Measures the tables of 1,024 objects: a store, exports and imports. It prints nothing; benchmarks/tables runs it and reports
//! how long each took.
#![tactic(auto)]

mod references;
mod work;

use crate::references::{
    accept_each, fill_exports, fill_imports, hold_proxies, renew_each, send_each,
};
use crate::work::{fill, hold_each, look_each};
use np_objects::Store;
use np_proxy::{Exports, Imports, ProxyError};
use np_values::{NoMemory, Side};
use std::alloc::Global;
use std::process::ExitCode;
use std::{env, io};

/// The words behind the program's name.
fn command_words(rt: &HostRuntime, alloc: Global) -> io::Result<Vec<String>> {
    let mut words = Vec::new(alloc);
    for word in env::args(rt)?.skip(1) {
        words.push(word)?;
    }
    Ok(words)
}

/// What is measured of a store; 3 where an object isn't found.
fn run_store(alloc: Global, what: &str, times: u32) -> Result<u8, NoMemory> {
    let mut store = Store::new(alloc, Side::Plug);
    let names = fill(alloc, &mut store)?;
    match what {
        "look" => Ok(look_each(&store, &names, times)),
        _ => Ok(hold_each(&mut store, &names, times)),
    }
}

/// What is measured of exports; 3 where a reference isn't taken back.
fn run_exports(alloc: Global, times: u32) -> Result<u8, NoMemory> {
    let mut exports = Exports::new(alloc, Side::Plug);
    let names = fill_exports(alloc, &mut exports)?;
    Ok(send_each(&mut exports, &names, times))
}

/// What is measured of imports.
fn run_imports(alloc: Global, what: &str, times: u32) -> Result<(), ProxyError> {
    let mut imports = Imports::new(alloc, Side::Plug);
    let names = fill_imports(alloc, &mut imports)?;
    match what {
        "accept" => accept_each(alloc, &mut imports, &names, times),
        "renew" => renew_each(alloc, &mut imports, &names, times),
        _ => {
            hold_proxies(&mut imports, &names, times);
            Ok(())
        }
    }
}

/// The status of what was measured of imports: 3 where a count is full, 8 where memory ran out.
fn status_of(outcome: Result<(), ProxyError>) -> u8 {
    match outcome {
        Ok(()) => 0,
        Err(ProxyError::NoMemory) => 8,
        Err(_) => 3,
    }
}

/// Does so many times what the words say: `look`, `hold`, `send`, `accept`, `renew` or `proxy`. The status is 2 where they say
/// nothing else.
fn run(alloc: Global, words: &[String]) -> Result<u8, NoMemory> {
    let [what, times] = words else {
        return Ok(2);
    };
    let Ok(times) = times.as_str().parse::<u32>() else {
        return Ok(2);
    };
    match what.as_str() {
        "look" | "hold" => run_store(alloc, what.as_str(), times),
        "send" => run_exports(alloc, times),
        "accept" | "renew" | "proxy" => Ok(status_of(run_imports(alloc, what.as_str(), times))),
        _ => Ok(2),
    }
}

fn main(rt: HostRuntime) -> ExitCode {
    let Ok(words) = command_words(&rt, rt.alloc()) else {
        return ExitCode::from(8);
    };
    match run(rt.alloc(), &words) {
        Ok(status) => ExitCode::from(status),
        Err(NoMemory) => ExitCode::from(8),
    }
}
