//! Pending releases, in rising order.
ghost use Rattle.std.specs.Prelude.{◌≡◌, ◌+◌, ◌<◌, ◌≤◌, ◌^◌, true, length, drop, filter};
ghost use Rattle.std.specs.Vec.{vec_capacity};
ghost use Rattle.np_proxy.specs.Named.{is_rising};
ghost use Rattle.std.specs.List.{list_all};
ghost use Rattle.np_proxy.specs.Imports.{release_name, times_in, with_release, is_release_of_other, is_typed};

use crate::Release;
use crate::named::{Named, find, get, put};
use np_values::{Name, Side};

/// The most releases that a message carries. (This project's own.)
const MOST_CARRIED: usize = 1024;

/// How many references to the object are to be given back.
pub fn pending_times(releases: &[Release], name: Name) -> u32
    requires rising { is_rising release_name releases.now ≡ true }
    ensures value { result ≡ times_in name releases.now }
{
    let key = Name {
        side: Side::Page,
        instance: name.instance,
        serial: name.serial,
    };
    match get(releases, key) {
        Some(release) => release.times,
        None => 0,
    }
}

/// Adds a release, in room that was made before.
pub fn add_release(releases: &mut Vec<Release>, release: Release)
    requires rising { is_rising release_name releases.old.items ≡ true }
    requires room { length releases.old.items < vec_capacity releases.old }
    requires fits { times_in (release_name release) releases.old.items + release.times < 2 ^ 32 }
    ensures value { releases.new.items ≡ with_release release releases.old.items }
    ensures rising { is_rising release_name releases.new.items ≡ true }
    ensures typed { list_all is_typed releases.old.items ≡ true → list_all is_typed releases.new.items ≡ true }
    ensures capacity { vec_capacity releases.old ≤ vec_capacity releases.new }
{
    match find(releases.as_slice(), release.name()) {
        Some(place) => {
            let pending = &mut releases[place];
            pending.times += release.times;
        }
        None => match put(releases, release) {
            Ok(()) => {}
            Err(_) => {}
        },
    }
}

/// Takes the first 1,024 releases away, or all where there are fewer.
pub fn drop_first(releases: &mut Vec<Release>)
    ensures value { releases.new.items ≡ drop 1024 releases.old.items }
    ensures capacity { vec_capacity releases.new ≡ vec_capacity releases.old }
{
    if releases.len() <= MOST_CARRIED {
        releases.clear();
        return;
    }
    drop_front(releases, MOST_CARRIED);
}

fn drop_front(releases: &mut Vec<Release>, count: usize)
    requires within { count ≤ length releases.old.items }
    ensures value { releases.new.items ≡ drop count releases.old.items }
    ensures capacity { vec_capacity releases.new ≡ vec_capacity releases.old }
{
    releases.rotate_left(count);
    let left = releases.len() - count;
    releases.truncate(left);
}

/// Removes the releases of an instance.
pub fn remove_releases(releases: &mut Vec<Release>, instance: u8)
    ensures value { releases.new.items ≡ filter (is_release_of_other instance) releases.old.items }
    ensures capacity { vec_capacity releases.new ≡ vec_capacity releases.old }
{
    releases.retain(|release| release.instance != instance);
}
