//! Lists of entries in rising order of names, searched by halves.
ghost use Rattle.std.specs.Prelude.{◌≡◌, ◌≤◌, ◌<◌, true, false, length, OnOk, OnErr, MatchOption, None, Some};
ghost use Rattle.std.specs.List.Sorted.{IsPartitionPoint};
ghost use Rattle.std.specs.Vec.{vec_capacity};
ghost use Rattle.np_values.specs.Name.{is_before};
ghost use Rattle.np_proxy.specs.Named.{is_rising, is_there, named_at, with_named, without_named, Finds};

pub use np_name_search::Named;
use np_values::{Name, NoMemory};

/// How many names stand before this one.
pub fn place_of<T: Named>(entries: &[T], name: Name) -> usize
    requires rising { is_rising T.Named.name_of entries.now ≡ true }
    ensures within { result ≤ length entries.now }
    ensures parts { IsPartitionPoint (λ e. is_before (T.Named.name_of e) name ≡ true) (λ e. is_before (T.Named.name_of e) name ≡ false) entries.now result }
{
    np_name_search::count_before(entries, name)
}

/// The place of the entry of this name.
pub fn find<T: Named>(entries: &[T], name: Name) -> Option<usize>
    requires rising { is_rising T.Named.name_of entries.now ≡ true }
    ensures found { Finds T.Named.name_of name entries.now result }
{
    let place = place_of(entries, name);
    if place == entries.len() {
        return None;
    }
    if name.before(entries[place].name()) {
        return None;
    }
    Some(place)
}

/// The entry of this name, if there is one.
pub fn get<T: Named>(entries: &[T], name: Name) -> Option<&T>
    requires rising { is_rising T.Named.name_of entries.now ≡ true }
    ensures value { MatchOption result (named_at T.Named.name_of name entries.now ≡ None)
        (λ entry. named_at T.Named.name_of name entries.now ≡ Some entry.now) }
{
    match find(entries, name) {
        Some(place) => Some(&entries[place]),
        None => None,
    }
}

/// Puts an entry of a further name at its place. It succeeds where there is room.
pub fn put<T: Named + Drop>(entries: &mut Vec<T>, entry: T) -> Result<(), NoMemory>
    requires rising { is_rising T.Named.name_of entries.old.items ≡ true }
    requires absent { is_there T.Named.name_of (T.Named.name_of entry) entries.old.items ≡ false }
    ensures ok { OnOk result (entries.new.items ≡ with_named T.Named.name_of entry entries.old.items) }
    ensures err { OnErr result (entries.new.items ≡ entries.old.items) }
    ensures full { OnErr result (vec_capacity entries.old ≤ length entries.old.items) }
    ensures rising { is_rising T.Named.name_of entries.new.items ≡ true }
    ensures capacity { vec_capacity entries.old ≤ vec_capacity entries.new }
{
    let place = place_of(entries.as_slice(), entry.name());
    entries.insert(place, entry)?;
    Ok(())
}

/// Takes the entry of this name away, if there is one.
pub fn take<T: Named + Drop>(entries: &mut Vec<T>, name: Name) -> Option<T>
    requires rising { is_rising T.Named.name_of entries.old.items ≡ true }
    ensures value { result ≡ named_at T.Named.name_of name entries.old.items }
    ensures rest { entries.new.items ≡ without_named T.Named.name_of name entries.old.items }
    ensures gone { is_there T.Named.name_of name entries.new.items ≡ false }
    ensures rising { is_rising T.Named.name_of entries.new.items ≡ true }
    ensures capacity { vec_capacity entries.new ≡ vec_capacity entries.old }
{
    match find(entries.as_slice(), name) {
        Some(place) => Some(entries.remove(place)),
        None => None,
    }
}
