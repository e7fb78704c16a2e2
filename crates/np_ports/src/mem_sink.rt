//! A sink in memory of which chosen writes fail.

ghost use Rattle.std.specs.Prelude.{◌≡◌, ◌<◌, ◌≤◌, [], Some, true, length, Err, IfOk};
ghost use Rattle.np_ports.specs.declared.error.PortError.TheVariants.{Failed};
ghost use Rattle.np_ports.specs.Causes.{HasCause, counted, counted_memory};
ghost use Rattle.np_ports.specs.Memory.{mem_bytes, mem_sink_plan, mem_sink_faults, mem_memory_faults};
ghost use Rattle.np_ports.specs.Plan.{plan_from, fails_next, after_call, FailsWhere};
ghost use Rattle.np_ports.specs.Sink.{Takes};

use crate::call_plan::CallPlan;
use crate::sink_memory::append;
use crate::{PortError, Sink};
use std::alloc::Global;

/// A sink that keeps all the bytes that it is given, but for the writes that are to fail. This project's own.
#[derive(Drop)]
pub struct MemSink {
    bytes: Vec<u8>,
    plan: CallPlan,
    faults: u64,
    memory_faults: u64,
}

impl MemSink {
    /// A sink that took nothing yet. Its writes are numbered from 1, and those that `fail_at` lists fail;
    /// 2^64 - 1 there stands for all writes from that number on.
    pub fn new(alloc: Global, fail_at: Vec<u64>) -> MemSink
        ensures taken { mem_bytes result ≡ [] }
        ensures plan { mem_sink_plan result ≡ plan_from fail_at.items }
        ensures faults { mem_sink_faults result ≡ 0 }
        ensures memory_faults { mem_memory_faults result ≡ 0 }
    {
        MemSink {
            bytes: Vec::new(alloc),
            plan: CallPlan::new(fail_at),
            faults: 0,
            memory_faults: 0,
        }
    }

    /// The bytes that it took.
    pub fn bytes(&self) -> &[u8]
        ensures { result.now ≡ mem_bytes self.now }
    {
        self.bytes.as_slice()
    }
}

impl Sink for MemSink {
    ghost taken = { λ s. Some (mem_bytes s) };

    ghost faults = { mem_sink_faults };

    ghost memory_faults = { mem_memory_faults };

    fn write(&mut self, bytes: &[u8]) -> Result<usize, PortError>
        requires { 0 < length bytes.now }
        ensures bound { IfOk result (λ n. (0 < n) × (n ≤ length bytes.now)) }
        ensures taken { Takes (Some (mem_bytes self.old)) (Some (mem_bytes self.new)) result bytes.now }
        ensures cause { HasCause (mem_sink_faults self.old) (mem_sink_faults self.new) result }

        ensures fails { FailsWhere (fails_next (mem_sink_plan self.old)) result }
        // To fail takes no memory.
        ensures refused { fails_next (mem_sink_plan self.old) ≡ true → result ≡ Err Failed }
        ensures count { mem_sink_faults self.new ≡ counted (mem_sink_faults self.old) result }
        ensures memory_count { mem_memory_faults self.new ≡ counted_memory (mem_memory_faults self.old) result }
        ensures next { mem_sink_plan self.new ≡ after_call (mem_sink_plan self.old) }
        ensures all { IfOk result (λ n. n ≡ length bytes.now) }
    {
        if self.plan.fails_now() {
            self.faults = self.faults.saturating_add(1);
            return Err(PortError::Failed);
        }
        append(&mut self.bytes, &mut self.memory_faults, bytes)
    }
}
