//! A peer in memory that never fails.

use crate::peer_memory::PeerMemory;
use crate::{Peer, PortError};
use std::alloc::Global;

/// A peer that gives the bytes that it was made of, and takes all. Its counts of faults stay 0.
/// This project's own.
#[derive(Drop)]
pub struct SurePeer {
    memory: PeerMemory,
}

impl SurePeer {
    ghost use Rattle.std.specs.Prelude.{◌≡◌, ◌<◌, [], false, map, string_bytes};
    ghost use Rattle.np_ports.specs.Memory.{sure_known, sure_ended, sure_piece, fresh};

    /// A peer that gives the bytes of `given`, at most `piece` of them in one read.
    pub fn new(alloc: Global, given: Vec<u8>, piece: usize) -> SurePeer
        requires { 0 < piece }
        ensures known { sure_known result ≡ fresh given.items }
        ensures ended { sure_ended result ≡ false }
        ensures piece { sure_piece result ≡ piece }
    {
        SurePeer {
            memory: PeerMemory::new(alloc, given, piece),
        }
    }

    /// The bytes that it took.
    pub fn taken(&self) -> &[u8]
        ensures { result.now ≡ (sure_known self.now).taken }
    {
        self.memory.taken()
    }

    /// The words of each start, in order.
    pub fn starts(&self) -> &[Vec<String>]
        ensures { map (λ words. map (λ w. string_bytes w) words.items) result.now ≡ (sure_known self.now).starts }
    {
        self.memory.starts()
    }
}

impl Peer for SurePeer {
    ghost use Rattle.std.specs.Prelude.{◌≡◌, ◌<◌, ◌≤◌, Some, length, map, string_bytes, IfOk};
    ghost use Rattle.np_ports.specs.Causes.{HasCause};
    ghost use Rattle.np_ports.specs.Memory.{sure_known, sure_ended, sure_piece, next_count};
    ghost use Rattle.np_ports.specs.Peer.{Starts, Reads, Writes, EndsAt};

    ghost known = { λ p. Some (sure_known p) };

    ghost has_ended = { sure_ended };

    ghost start_faults = { λ p. 0 };

    ghost pipe_faults = { λ p. 0 };

    fn start(&mut self, words: &[String]) -> Result<(), PortError>
        requires { 0 < length words.now }
        ensures known { Starts (Some (sure_known self.old)) (Some (sure_known self.new)) result (map (λ w. string_bytes w) words.now) }
        ensures cause { HasCause 0 0 result }
        ensures ended { sure_ended self.new ≡ sure_ended self.old }

        ensures piece { sure_piece self.new ≡ sure_piece self.old }
    {
        self.memory.note_start(words)?;
        Ok(())
    }

    fn read(&mut self, buf: &mut [u8]) -> Result<usize, PortError>
        requires { 0 < length buf.old }
        ensures bound { IfOk result (λ n. n ≤ length buf.new) }
        ensures known { Reads (Some (sure_known self.old)) (Some (sure_known self.new)) result buf.new }
        ensures cause { HasCause 0 0 result }
        ensures ended { EndsAt (sure_ended self.old) (sure_ended self.new) result }

        ensures given { IfOk result (λ n. n ≡ next_count (sure_known self.old) (sure_piece self.old) (length buf.old)) }
        ensures piece { sure_piece self.new ≡ sure_piece self.old }
    {
        self.memory.read(buf)
    }

    fn write(&mut self, bytes: &[u8]) -> Result<usize, PortError>
        requires { 0 < length bytes.now }
        ensures bound { IfOk result (λ n. (0 < n) × (n ≤ length bytes.now)) }
        ensures known { Writes (Some (sure_known self.old)) (Some (sure_known self.new)) result bytes.now }
        ensures cause { HasCause 0 0 result }
        ensures ended { sure_ended self.new ≡ sure_ended self.old }

        ensures all { IfOk result (λ n. n ≡ length bytes.now) }
        ensures piece { sure_piece self.new ≡ sure_piece self.old }
    {
        self.memory.write(bytes)
    }
}
