//! Files in memory of which chosen calls fail.

ghost use Rattle.std.specs.Prelude.{◌≡◌, ◌<◌, ◌≤◌, ◌||◌, [], ◌++◌, ◌∷◌, Some, false, length, drop, min, IfOk, IsOk, OnOk, OnErr};
ghost use Rattle.np_ports.specs.declared.file_call.FileCall.{FileCall};
ghost use Rattle.np_ports.specs.Causes.{HasCause, counted};
ghost use Rattle.np_ports.specs.Files.{ReadsFile, PutsFile, NotesFailure};
ghost use Rattle.np_ports.specs.Memory.{mem_entries, mem_failures, mem_files_plan, mem_files_faults, content_of, found, is_missing, failures_of};
ghost use Rattle.np_ports.specs.Plan.{plan_from, fails_next, after_call, FailsWhere};

use crate::bytes::copy_from;
use crate::call_plan::CallPlan;
use crate::file_memory::{find, put};
use crate::{FileCall, Files, PortError};
use std::alloc::{AllocError, Global};

/// Files in memory; a read of a name that isn't there fails, and so do the calls that are to fail.
/// This project's own.
#[derive(Drop)]
pub struct MemFiles {
    alloc: Global,
    entries: Vec<(String, Vec<u8>)>,
    failures: Vec<(String, FileCall)>,
    plan: CallPlan,
    faults: u64,
}

impl MemFiles {
    /// Files of these names and contents. Of several entries with one name the last counts. The calls, of
    /// both kinds together, are numbered from 1, and those that `fail_at` lists fail; 2^64 - 1 there stands
    /// for all calls from that number on.
    pub fn new(alloc: Global, entries: Vec<(String, Vec<u8>)>, fail_at: Vec<u64>) -> MemFiles
        ensures entries { mem_entries result ≡ entries.items }
        ensures failures { mem_failures result ≡ [] }
        ensures plan { mem_files_plan result ≡ plan_from fail_at.items }
        ensures faults { mem_files_faults result ≡ 0 }
    {
        MemFiles {
            alloc,
            entries,
            failures: Vec::new(alloc),
            plan: CallPlan::new(fail_at),
            faults: 0,
        }
    }
}

fn note_failure(
    alloc: Global,
    failures: &mut Vec<(String, FileCall)>,
    name: &str,
    call: FileCall,
) -> Result<(), AllocError>
    ensures ok { OnOk result (failures_of failures.new.items ≡ failures_of failures.old.items ++ (name.now, call) ∷ []) }
    ensures err { OnErr result (failures_of failures.new.items ≡ failures_of failures.old.items) }
{
    let name = String::from_str(alloc, name)?;
    failures.push((name, call))?;
    Ok(())
}

impl Files for MemFiles {
    ghost contents = { λ f. Some (content_of (mem_entries f)) };

    ghost failed_calls = { λ f. Some (mem_failures f) };

    ghost faults = { mem_files_faults };

    fn read(&mut self, name: &str, at: u64, buf: &mut [u8]) -> Result<usize, PortError>
        requires { 0 < length buf.old }
        ensures bound { IfOk result (λ n. n ≤ length buf.new) }
        ensures contents { ReadsFile (Some (content_of (mem_entries self.old))) (Some (content_of (mem_entries self.new))) result name.now at buf.new }
        ensures failed_calls { NotesFailure (Some (mem_failures self.old)) (Some (mem_failures self.new)) result name.now FileCall.Read }
        ensures cause { HasCause (mem_files_faults self.old) (mem_files_faults self.new) result }

        ensures fails { FailsWhere (fails_next (mem_files_plan self.old) || is_missing (found (mem_entries self.old) name.now)) result }
        // A read that isn't to fail takes no memory.
        ensures done { fails_next (mem_files_plan self.old) ≡ false → is_missing (found (mem_entries self.old) name.now) ≡ false → IsOk result }
        ensures count { mem_files_faults self.new ≡ counted (mem_files_faults self.old) result }
        ensures next { mem_files_plan self.new ≡ after_call (mem_files_plan self.old) }
        ensures given { IfOk result (λ n. n ≡ min (length (drop at (content_of (mem_entries self.old) name.now))) (length buf.old)) }
        ensures entries { mem_entries self.new ≡ mem_entries self.old }
    {
        if !self.plan.fails_now() {
            if let Some(bytes) = find(self.entries.as_slice(), name) {
                return Ok(copy_from(bytes, at, buf));
            }
        }
        note_failure(self.alloc, &mut self.failures, name, FileCall::Read)?;
        self.faults = self.faults.saturating_add(1);
        Err(PortError::Failed)
    }

    fn put(&mut self, name: &str, bytes: &[u8]) -> Result<(), PortError>
        ensures contents { PutsFile (Some (content_of (mem_entries self.old))) (Some (content_of (mem_entries self.new))) result name.now bytes.now }
        ensures failed_calls { NotesFailure (Some (mem_failures self.old)) (Some (mem_failures self.new)) result name.now FileCall.Put }
        ensures cause { HasCause (mem_files_faults self.old) (mem_files_faults self.new) result }

        ensures fails { FailsWhere (fails_next (mem_files_plan self.old)) result }
        ensures count { mem_files_faults self.new ≡ counted (mem_files_faults self.old) result }
        ensures next { mem_files_plan self.new ≡ after_call (mem_files_plan self.old) }
        // A put that isn't done leaves the old file.
        ensures err { OnErr result (mem_entries self.new ≡ mem_entries self.old) }
    {
        if self.plan.fails_now() {
            note_failure(self.alloc, &mut self.failures, name, FileCall::Put)?;
            self.faults = self.faults.saturating_add(1);
            return Err(PortError::Failed);
        }
        put(self.alloc, &mut self.entries, name, bytes)?;
        Ok(())
    }
}
