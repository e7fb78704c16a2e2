//! Lists of proxies, in rising order of names.
ghost use Rattle.std.specs.Prelude.{◌≡◌, ◌+◌, ◌<◌, ◌≤◌, ◌^◌, [], true, false, length, map, filter, not, None, Some, MatchOption, IfOk, OnOk};
ghost use Rattle.std.specs.Vec.{vec_capacity};
ghost use Rattle.np_values.specs.declared.name.Name.{Name};
ghost use Rattle.np_proxy.specs.Named.{is_rising, at_name, without_named};
ghost use Rattle.np_proxy.specs.Imports.{import_name, release_name, received_in, holders_in, was_purged, taken_up, all_taken_up, has_room, full_among, count_in, held_once_less, is_held_in, is_proxy_of_other};

use crate::named::{Named, find, get, put};
use crate::pending::pending_times;
use crate::{Import, Release};
use np_name_search::NumberedName;
use np_values::{Name, NameList, NoMemory};
use std::alloc::Global;

/// The most references to one object that are counted as received.
const MOST_RECEIVED: u64 = u32::MAX as u64;

/// How often the name came since its last release arose.
fn received(proxies: &[Import], name: Name) -> u32
    requires rising { is_rising import_name proxies.now ≡ true }
    ensures value { result ≡ received_in name proxies.now }
{
    match get(proxies, name) {
        Some(proxy) => proxy.received,
        None => 0,
    }
}

/// How often the name is among the names.
fn count_of(names: &[Name], name: Name) -> usize
    ensures value { result ≡ count_in name names.now }
    ensures few { result < 2 ^ 63 }
{
    let mut count = 0;
    for other in names {
        if *other == name {
            count += 1;
        }
    }
    count
}

fn is_purged(purged: &[bool; 256], instance: u8) -> bool
    ensures value { result ≡ was_purged purged.now instance }
{
    purged[usize::from(instance)]
}

/// Whether no more of the name can be counted after these names came.
fn is_full(
    proxies: &[Import],
    releases: &[Release],
    purged: &[bool; 256],
    before: &[Name],
    name: Name,
) -> bool
    requires proxies { is_rising import_name proxies.now ≡ true }
    requires releases { is_rising release_name releases.now ≡ true }
    ensures value { result ≡ not (has_room purged.now releases.now name (all_taken_up purged.now before.now proxies.now)) }
{
    if is_purged(purged, name.instance) {
        return false;
    }
    let came = u64::from(received(proxies, name)) + count_of(before, name) as u64;
    came + u64::from(pending_times(releases, name)) >= MOST_RECEIVED
}

/// The first of the names whose count, with what is pending of it, would pass the limit.
pub fn first_full(
    proxies: &[Import],
    releases: &[Release],
    purged: &[bool; 256],
    names: &[Name],
) -> Option<Name>
    requires proxies { is_rising import_name proxies.now ≡ true }
    requires releases { is_rising release_name releases.now ≡ true }
    ensures value { result ≡ full_among purged.now releases.now names.now proxies.now }
{
    for place in 0..names.len() {
        if is_full(proxies, releases, purged, &names[..place], names[place]) {
            return Some(names[place]);
        }
    }
    None
}

/// Counts a name that came, unless its instance was purged. There is room for a further proxy.
fn take_up(proxies: &mut Vec<Import>, purged: &[bool; 256], name: Name)
    requires rising { is_rising import_name proxies.old.items ≡ true }
    requires room { length proxies.old.items < vec_capacity proxies.old }
    requires received { was_purged purged.now name.instance ≡ false → received_in name proxies.old.items + 1 < 2 ^ 32 }
    requires holders { holders_in name proxies.old.items + 1 < 2 ^ 64 }
    ensures value { proxies.new.items ≡ taken_up purged.now name proxies.old.items }
    ensures rising { is_rising import_name proxies.new.items ≡ true }
    ensures capacity { vec_capacity proxies.old ≤ vec_capacity proxies.new }
{
    if is_purged(purged, name.instance) {
        return;
    }
    match find(proxies.as_slice(), name) {
        Some(place) => {
            let proxy = &mut proxies[place];
            proxy.received += 1;
            proxy.holders += 1;
        }
        None => {
            let proxy = Import {
                name: NumberedName::new(name),
                received: 1,
                holders: 1,
            };
            match put(proxies, proxy) {
                Ok(()) => {}
                Err(_) => {}
            }
        }
    }
}

/// Counts names that came, one after another. There is room for as many further proxies.
pub fn take_up_all(proxies: &mut Vec<Import>, purged: &[bool; 256], names: &[Name])
    requires rising { is_rising import_name proxies.old.items ≡ true }
    requires room { length proxies.old.items + length names.now ≤ vec_capacity proxies.old }
    requires fits { full_among purged.now [] names.now proxies.old.items ≡ None }
    requires holders { (x : Name) → holders_in x proxies.old.items + length names.now < 2 ^ 64 }
    ensures value { proxies.new.items ≡ all_taken_up purged.now names.now proxies.old.items }
    ensures rising { is_rising import_name proxies.new.items ≡ true }
{
    for name in names {
        take_up(proxies, purged, *name);
    }
}

/// Makes room for further proxies and for the releases of all.
pub fn make_room(
    proxies: &mut Vec<Import>,
    releases: &mut Vec<Release>,
    count: usize,
) -> Result<(), NoMemory>
    ensures proxies { proxies.new.items ≡ proxies.old.items }
    ensures releases { releases.new.items ≡ releases.old.items }
    ensures further { OnOk result (length proxies.new.items + count ≤ vec_capacity proxies.new) }
    ensures pending { OnOk result (length proxies.new.items + count + length releases.new.items ≤ vec_capacity releases.new) }
    ensures kept { vec_capacity releases.old ≤ vec_capacity releases.new }
{
    proxies.reserve(count)?;
    releases.reserve(proxies.len() + count)?;
    Ok(())
}

/// The proxy stands for one reference less. Where that was the last, the proxy is gone, and how often its name came is returned.
pub fn let_go(proxies: &mut Vec<Import>, name: Name) -> Option<u32>
    requires rising { is_rising import_name proxies.old.items ≡ true }
    requires held { 0 < holders_in name proxies.old.items }
    ensures value { MatchOption result
        ((1 < holders_in name proxies.old.items) × (proxies.new.items ≡ at_name import_name name held_once_less proxies.old.items))
        (λ received. (holders_in name proxies.old.items ≤ 1) × (received ≡ received_in name proxies.old.items)
        × (proxies.new.items ≡ without_named import_name name proxies.old.items)) }
    ensures rising { is_rising import_name proxies.new.items ≡ true }
{
    match find(proxies.as_slice(), name) {
        Some(place) => {
            if proxies[place].holders > 1 {
                let proxy = &mut proxies[place];
                proxy.holders -= 1;
                return None;
            }
            let proxy = proxies.remove(place);
            Some(proxy.received)
        }
        None => None,
    }
}

/// The names of an instance that are held.
pub fn held_names(alloc: Global, proxies: &[Import], instance: u8) -> Result<NameList, NoMemory>
    ensures value { IfOk result (λ names. names ≡ map import_name (filter (is_held_in instance) proxies.now)) }
{
    let mut names = NameList::new(alloc);
    for proxy in proxies {
        let name = proxy.name();
        if name.instance == instance && proxy.holders > 0 {
            names.push(name)?;
        }
    }
    Ok(names)
}

/// Removes the proxies of an instance.
pub fn remove_proxies(proxies: &mut Vec<Import>, instance: u8)
    ensures value { proxies.new.items ≡ filter (is_proxy_of_other instance) proxies.old.items }
{
    proxies.retain(|proxy| proxy.name().instance != instance);
}
