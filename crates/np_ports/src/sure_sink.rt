//! A sink in memory that never fails.

ghost use Rattle.std.specs.Prelude.{◌≡◌, ◌<◌, ◌≤◌, [], Some, length, IfOk};
ghost use Rattle.np_ports.specs.Causes.{HasCause, counted_memory};
ghost use Rattle.np_ports.specs.Memory.{sure_bytes, sure_memory_faults};
ghost use Rattle.np_ports.specs.Sink.{Takes};

use crate::sink_memory::append;
use crate::{PortError, Sink};
use std::alloc::Global;

/// A sink that keeps all the bytes that it is given. Its count of faults stays 0; memory may run out.
/// This project's own.
#[derive(Drop)]
pub struct SureSink {
    bytes: Vec<u8>,
    memory_faults: u64,
}

impl SureSink {
    /// A sink that took nothing yet.
    pub fn new(alloc: Global) -> SureSink
        ensures taken { sure_bytes result ≡ [] }
        ensures memory_faults { sure_memory_faults result ≡ 0 }
    {
        SureSink {
            bytes: Vec::new(alloc),
            memory_faults: 0,
        }
    }

    /// The bytes that it took.
    pub fn bytes(&self) -> &[u8]
        ensures { result.now ≡ sure_bytes self.now }
    {
        self.bytes.as_slice()
    }
}

impl Sink for SureSink {
    ghost taken = { λ s. Some (sure_bytes s) };

    ghost faults = { λ s. 0 };

    ghost memory_faults = { sure_memory_faults };

    fn write(&mut self, bytes: &[u8]) -> Result<usize, PortError>
        requires { 0 < length bytes.now }
        ensures bound { IfOk result (λ n. (0 < n) × (n ≤ length bytes.now)) }
        ensures taken { Takes (Some (sure_bytes self.old)) (Some (sure_bytes self.new)) result bytes.now }
        ensures cause { HasCause 0 0 result }
        ensures memory_count { sure_memory_faults self.new ≡ counted_memory (sure_memory_faults self.old) result }

        ensures all { IfOk result (λ n. n ≡ length bytes.now) }
    {
        append(&mut self.bytes, &mut self.memory_faults, bytes)
    }
}
