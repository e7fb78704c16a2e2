//! Files in memory that never fail.

ghost use Rattle.std.specs.Prelude.{◌≡◌, ◌<◌, ◌≤◌, [], Some, length, drop, min, IfOk, IsOk, OnErr};
ghost use Rattle.np_ports.specs.Causes.{HasCause};
ghost use Rattle.np_ports.specs.Files.{ReadsFile, PutsFile};
ghost use Rattle.np_ports.specs.Memory.{sure_entries, content_of};

use crate::bytes::copy_from;
use crate::file_memory::{find, put};
use crate::{Files, PortError};
use std::alloc::Global;

/// Files in memory; a name that isn't there is an empty file. Their count of faults stays 0.
/// This project's own.
#[derive(Drop)]
pub struct SureFiles {
    alloc: Global,
    entries: Vec<(String, Vec<u8>)>,
}

impl SureFiles {
    /// Files of these names and contents. Of several entries with one name the last counts.
    pub fn new(alloc: Global, entries: Vec<(String, Vec<u8>)>) -> SureFiles
        ensures { sure_entries result ≡ entries.items }
    {
        SureFiles { alloc, entries }
    }
}

impl Files for SureFiles {
    ghost contents = { λ f. Some (content_of (sure_entries f)) };

    ghost failed_calls = { λ f. Some [] };

    ghost faults = { λ f. 0 };

    fn read(&mut self, name: &str, at: u64, buf: &mut [u8]) -> Result<usize, PortError>
        requires { 0 < length buf.old }
        ensures bound { IfOk result (λ n. n ≤ length buf.new) }
        ensures contents { ReadsFile (Some (content_of (sure_entries self.old))) (Some (content_of (sure_entries self.new))) result name.now at buf.new }

        ensures never { IsOk result }
        ensures given { IfOk result (λ n. n ≡ min (length (drop at (content_of (sure_entries self.old) name.now))) (length buf.old)) }
        ensures entries { sure_entries self.new ≡ sure_entries self.old }
    {
        match find(self.entries.as_slice(), name) {
            Some(bytes) => Ok(copy_from(bytes, at, buf)),
            None => Ok(0),
        }
    }

    fn put(&mut self, name: &str, bytes: &[u8]) -> Result<(), PortError>
        ensures contents { PutsFile (Some (content_of (sure_entries self.old))) (Some (content_of (sure_entries self.new))) result name.now bytes.now }
        ensures cause { HasCause 0 0 result }

        // A put that isn't done leaves the old file.
        ensures err { OnErr result (sure_entries self.new ≡ sure_entries self.old) }
    {
        put(self.alloc, &mut self.entries, name, bytes)?;
        Ok(())
    }
}
