//! What the peers in memory have in common.

ghost use Rattle.std.specs.Prelude.{◌≡◌, ◌≤◌, ◌<◌, true, length};

use crate::PortError;
use crate::bytes::copy_front;
use crate::words::copy_words;
use std::alloc::{AllocError, Global};

// What a peer in memory gives, in pieces of at most some size, and what it was asked and sent.
#[derive(Drop)]
pub(crate) struct PeerMemory {
    alloc: Global,
    piece: usize,
    all: Vec<u8>,
    given: usize,
    ended: bool,
    taken: Vec<u8>,
    starts: Vec<Vec<String>>,
    reads: Vec<(usize, usize)>,
    ghost within: { given ≤ length all.items },
    ghost some: { 0 < piece },
    ghost done: { ended ≡ true → length all.items ≤ given },
}

impl PeerMemory {
    ghost use Rattle.std.specs.Prelude.{◌≡◌, ◌<◌, ◌≤◌, [], ◌++◌, ◌∷◌, false, min, take, drop, length, map, string_bytes, OnOk, OnErr, IfOk};
    ghost use Rattle.np_ports.specs.Peer.{Known, Starts, Reads, Writes, EndsAt, asked, started};
    ghost use Rattle.np_ports.specs.Memory.{known_of, fresh, next_count, NeverFails};

    pub(crate) fn new(alloc: Global, given: Vec<u8>, piece: usize) -> PeerMemory
        requires { 0 < piece }
        ensures known { known_of result ≡ fresh given.items }
        ensures ended { result.ended ≡ false }
        ensures piece { result.piece ≡ piece }
    {
        PeerMemory {
            alloc,
            piece,
            all: given,
            given: 0,
            ended: false,
            taken: Vec::new(alloc),
            starts: Vec::new(alloc),
            reads: Vec::new(alloc),
        }
    }

    pub(crate) fn taken(&self) -> &[u8]
        ensures { result.now ≡ (known_of self.now).taken }
    {
        self.taken.as_slice()
    }

    pub(crate) fn starts(&self) -> &[Vec<String>]
        ensures { map (λ words. map (λ w. string_bytes w) words.items) result.now ≡ (known_of self.now).starts }
    {
        self.starts.as_slice()
    }

    // Adds the words of a start.
    pub(crate) fn note_start(&mut self, words: &[String]) -> Result<(), AllocError>
        ensures ok { OnOk result (known_of self.new ≡ started (known_of self.old) (map (λ w. string_bytes w) words.now)) }
        ensures err { OnErr result (known_of self.new ≡ known_of self.old) }
        ensures ended { self.new.ended ≡ self.old.ended }
        ensures piece { self.new.piece ≡ self.old.piece }
    {
        let words = copy_words(self.alloc, words)?;
        self.starts.push(words)?;
        Ok(())
    }

    // Adds a read to the list of reads.
    pub(crate) fn note_read(&mut self) -> Result<(), AllocError>
        ensures ok { OnOk result (known_of self.new ≡ asked (known_of self.old)) }
        ensures err { OnErr result (known_of self.new ≡ known_of self.old) }
        ensures ended { self.new.ended ≡ self.old.ended }
        ensures piece { self.new.piece ≡ self.old.piece }
    {
        self.reads.push((self.taken.len(), self.given))?;
        Ok(())
    }

    pub(crate) fn read(&mut self, buf: &mut [u8]) -> Result<usize, PortError>
        requires { 0 < length buf.old }
        ensures count { IfOk result (λ n. n ≡ next_count (known_of self.old) self.old.piece (length buf.old)) }
        ensures known { Reads (Some (known_of self.old)) (Some (known_of self.new)) result buf.new }
        ensures ended { EndsAt self.old.ended self.new.ended result }
        ensures never { NeverFails result }
        ensures piece { self.new.piece ≡ self.old.piece }
    {
        self.note_read()?;
        let n = copy_front(&self.all[self.given..], self.piece, buf);
        self.given += n;
        self.ended = self.ended || n == 0;
        Ok(n)
    }

    pub(crate) fn write(&mut self, bytes: &[u8]) -> Result<usize, PortError>
        ensures all { IfOk result (λ n. n ≡ length bytes.now) }
        ensures known { Writes (Some (known_of self.old)) (Some (known_of self.new)) result bytes.now }
        ensures ended { self.new.ended ≡ self.old.ended }
        ensures never { NeverFails result }
        ensures piece { self.new.piece ≡ self.old.piece }
    {
        self.taken.extend_from_slice(bytes)?;
        Ok(bytes.len())
    }
}
