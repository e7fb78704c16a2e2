//! What the files in memory have in common.

ghost use Rattle.std.specs.Prelude.{◌≡◌, [], ◌++◌, ◌∷◌, string_bytes, MatchOption, OnOk, OnErr, IfOk, Some, None};
ghost use Rattle.np_ports.specs.Memory.{found, found_after, EndsWith};

use std::alloc::{AllocError, Global};

// The content of the last entry with this name.
pub(crate) fn find<'a>(entries: &'a [(String, Vec<u8>)], name: &str) -> Option<&'a [u8]>
    ensures { MatchOption result (found entries.now name.now ≡ None) (λ bytes. found entries.now name.now ≡ Some bytes.now) }
{
    let mut last = None;
    for entry in entries {
        if entry.0.as_str() == name {
            last = Some(entry.1.as_slice());
        }
    }
    last
}

// Puts a file in place of an old one: its entry is the last.
pub(crate) fn put(
    alloc: Global,
    entries: &mut Vec<(String, Vec<u8>)>,
    name: &str,
    bytes: &[u8],
) -> Result<(), AllocError>
    ensures ok { OnOk result (EndsWith entries.old.items entries.new.items name.now bytes.now) }
    ensures err { OnErr result (entries.new.items ≡ entries.old.items) }
{
    let name = String::from_str(alloc, name)?;
    let bytes = bytes.to_vec(alloc)?;
    entries.push((name, bytes))?;
    Ok(())
}
