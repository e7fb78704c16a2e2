//! A peer in memory of which chosen calls fail.

use crate::call_plan::CallPlan;
use crate::peer_memory::PeerMemory;
use crate::{Peer, PortError};
use std::alloc::Global;

/// A peer that gives the bytes that it was made of, and takes all, but for the calls that are to fail.
/// This project's own.
#[derive(Drop)]
pub struct ScriptedPeer {
    memory: PeerMemory,
    plan: CallPlan,
    start_faults: u64,
    pipe_faults: u64,
}

impl ScriptedPeer {
    ghost use Rattle.std.specs.Prelude.{◌≡◌, ◌<◌, [], false, map, string_bytes};
    ghost use Rattle.np_ports.specs.Memory.{scripted_known, scripted_ended, scripted_piece, scripted_plan, scripted_start_faults, scripted_pipe_faults, fresh};
    ghost use Rattle.np_ports.specs.Plan.{plan_from};

    /// A peer that gives the bytes of `given`, at most `piece` of them in one read. Its calls, of every kind
    /// together, are numbered from 1, and those that `fail_at` lists fail; 2^64 - 1 there stands for all
    /// calls from that number on.
    pub fn new(alloc: Global, given: Vec<u8>, piece: usize, fail_at: Vec<u64>) -> ScriptedPeer
        requires { 0 < piece }
        ensures known { scripted_known result ≡ fresh given.items }
        ensures ended { scripted_ended result ≡ false }
        ensures piece { scripted_piece result ≡ piece }
        ensures plan { scripted_plan result ≡ plan_from fail_at.items }
        ensures start_faults { scripted_start_faults result ≡ 0 }
        ensures pipe_faults { scripted_pipe_faults result ≡ 0 }
    {
        ScriptedPeer {
            memory: PeerMemory::new(alloc, given, piece),
            plan: CallPlan::new(fail_at),
            start_faults: 0,
            pipe_faults: 0,
        }
    }

    /// The bytes that it took.
    pub fn taken(&self) -> &[u8]
        ensures { result.now ≡ (scripted_known self.now).taken }
    {
        self.memory.taken()
    }

    /// The words of each start, in order, also of those that failed.
    pub fn starts(&self) -> &[Vec<String>]
        ensures { map (λ words. map (λ w. string_bytes w) words.items) result.now ≡ (scripted_known self.now).starts }
    {
        self.memory.starts()
    }
}

impl Peer for ScriptedPeer {
    ghost use Rattle.std.specs.Prelude.{◌≡◌, ◌<◌, ◌≤◌, Some, true, length, map, string_bytes, Err, IfOk};
    ghost use Rattle.np_ports.specs.declared.error.PortError.TheVariants.{Failed};
    ghost use Rattle.np_ports.specs.Causes.{HasCause, counted};
    ghost use Rattle.np_ports.specs.Memory.{scripted_known, scripted_ended, scripted_piece, scripted_plan, scripted_start_faults, scripted_pipe_faults, next_count};
    ghost use Rattle.np_ports.specs.Peer.{Starts, Reads, Writes, EndsAt};
    ghost use Rattle.np_ports.specs.Plan.{fails_next, after_call, FailsWhere};

    ghost known = { λ p. Some (scripted_known p) };

    ghost has_ended = { scripted_ended };

    ghost start_faults = { scripted_start_faults };

    ghost pipe_faults = { scripted_pipe_faults };

    fn start(&mut self, words: &[String]) -> Result<(), PortError>
        requires { 0 < length words.now }
        ensures known { Starts (Some (scripted_known self.old)) (Some (scripted_known self.new)) result (map (λ w. string_bytes w) words.now) }
        ensures cause { HasCause (scripted_start_faults self.old) (scripted_start_faults self.new) result }
        ensures pipe_faults { scripted_pipe_faults self.new ≡ scripted_pipe_faults self.old }
        ensures ended { scripted_ended self.new ≡ scripted_ended self.old }

        ensures fails { FailsWhere (fails_next (scripted_plan self.old)) result }
        ensures count { scripted_start_faults self.new ≡ counted (scripted_start_faults self.old) result }
        ensures next { scripted_plan self.new ≡ after_call (scripted_plan self.old) }
        ensures piece { scripted_piece self.new ≡ scripted_piece self.old }
    {
        let fails = self.plan.fails_now();
        self.memory.note_start(words)?;
        if fails {
            self.start_faults = self.start_faults.saturating_add(1);
            return Err(PortError::Failed);
        }
        Ok(())
    }

    fn read(&mut self, buf: &mut [u8]) -> Result<usize, PortError>
        requires { 0 < length buf.old }
        ensures bound { IfOk result (λ n. n ≤ length buf.new) }
        ensures known { Reads (Some (scripted_known self.old)) (Some (scripted_known self.new)) result buf.new }
        ensures cause { HasCause (scripted_pipe_faults self.old) (scripted_pipe_faults self.new) result }
        ensures start_faults { scripted_start_faults self.new ≡ scripted_start_faults self.old }
        ensures ended { EndsAt (scripted_ended self.old) (scripted_ended self.new) result }

        ensures fails { FailsWhere (fails_next (scripted_plan self.old)) result }
        ensures count { scripted_pipe_faults self.new ≡ counted (scripted_pipe_faults self.old) result }
        ensures next { scripted_plan self.new ≡ after_call (scripted_plan self.old) }
        ensures given { IfOk result (λ n. n ≡ next_count (scripted_known self.old) (scripted_piece self.old) (length buf.old)) }
        ensures piece { scripted_piece self.new ≡ scripted_piece self.old }
    {
        if self.plan.fails_now() {
            self.memory.note_read()?;
            self.pipe_faults = self.pipe_faults.saturating_add(1);
            return Err(PortError::Failed);
        }
        self.memory.read(buf)
    }

    fn write(&mut self, bytes: &[u8]) -> Result<usize, PortError>
        requires { 0 < length bytes.now }
        ensures bound { IfOk result (λ n. (0 < n) × (n ≤ length bytes.now)) }
        ensures known { Writes (Some (scripted_known self.old)) (Some (scripted_known self.new)) result bytes.now }
        ensures cause { HasCause (scripted_pipe_faults self.old) (scripted_pipe_faults self.new) result }
        ensures start_faults { scripted_start_faults self.new ≡ scripted_start_faults self.old }
        ensures ended { scripted_ended self.new ≡ scripted_ended self.old }

        ensures fails { FailsWhere (fails_next (scripted_plan self.old)) result }
        // To fail takes no memory.
        ensures refused { fails_next (scripted_plan self.old) ≡ true → result ≡ Err Failed }
        ensures count { scripted_pipe_faults self.new ≡ counted (scripted_pipe_faults self.old) result }
        ensures next { scripted_plan self.new ≡ after_call (scripted_plan self.old) }
        ensures all { IfOk result (λ n. n ≡ length bytes.now) }
        ensures piece { scripted_piece self.new ≡ scripted_piece self.old }
    {
        if self.plan.fails_now() {
            self.pipe_faults = self.pipe_faults.saturating_add(1);
            return Err(PortError::Failed);
        }
        self.memory.write(bytes)
    }
}
