//! What the programs ask of their environment.

ghost use Rattle.std.specs.Prelude.{◌≡◌, ◌<◌, ◌≤◌, ℕ, List, Bool, Option, length, map, IfOk, string_bytes};
ghost use Rattle.np_ports.specs.declared.file_call.FileCall.{FileCall};
ghost use Rattle.np_ports.specs.Causes.{HasCause, counted, counted_memory};
ghost use Rattle.np_ports.specs.Peer.{Known, Starts, Reads, Writes, EndsAt};
ghost use Rattle.np_ports.specs.Files.{Contents, ReadsFile, PutsFile, NotesFailure};
ghost use Rattle.np_ports.specs.Sink.{Takes};

use crate::PortError;

/// The other program, at the two ends of a pair of pipes. It tells its calls where it can, and always whether
/// a read has answered the end and its two counts of faults, one of `start`, one of `read` and `write`. A count
/// of faults is one higher after each call of its kind that answered `Failed`, and else as it was.
/// This project's own.
pub trait Peer {
    ghost known: { Self → Option Known };

    ghost has_ended: { Self → Bool };

    ghost start_faults: { Self → ℕ };

    ghost pipe_faults: { Self → ℕ };

    /// Starts the program that the first word names, with the other words as its arguments.
    fn start(&mut self, words: &[String]) -> Result<(), PortError>
        requires { 0 < length words.now }
        ensures known { Starts (known self.old) (known self.new) result (map (λ w. string_bytes w) words.now) }
        ensures cause { HasCause (start_faults self.old) (start_faults self.new) result }
        ensures count { start_faults self.new ≡ counted (start_faults self.old) result }
        ensures pipe_faults { pipe_faults self.new ≡ pipe_faults self.old }
        ensures ended { has_ended self.new ≡ has_ended self.old };

    /// Reads bytes of the other program to the front of `buf`, and reports how many; 0 is the end.
    fn read(&mut self, buf: &mut [u8]) -> Result<usize, PortError>
        requires { 0 < length buf.old }
        ensures bound { IfOk result (λ n. n ≤ length buf.new) }
        ensures known { Reads (known self.old) (known self.new) result buf.new }
        ensures cause { HasCause (pipe_faults self.old) (pipe_faults self.new) result }
        ensures count { pipe_faults self.new ≡ counted (pipe_faults self.old) result }
        ensures start_faults { start_faults self.new ≡ start_faults self.old }
        ensures ended { EndsAt (has_ended self.old) (has_ended self.new) result };

    /// Writes bytes of the front of `bytes` to the other program, and reports how many.
    fn write(&mut self, bytes: &[u8]) -> Result<usize, PortError>
        requires { 0 < length bytes.now }
        ensures bound { IfOk result (λ n. (0 < n) × (n ≤ length bytes.now)) }
        ensures known { Writes (known self.old) (known self.new) result bytes.now }
        ensures cause { HasCause (pipe_faults self.old) (pipe_faults self.new) result }
        ensures count { pipe_faults self.new ≡ counted (pipe_faults self.old) result }
        ensures start_faults { start_faults self.new ≡ start_faults self.old }
        ensures ended { has_ended self.new ≡ has_ended self.old };
}

/// Files by name. They tell their contents and their calls that failed where they can, and always a count of
/// faults. This project's own.
pub trait Files {
    ghost contents: { Self → Option Contents };

    ghost failed_calls: { Self → Option (List (List ℕ × FileCall)) };

    ghost faults: { Self → ℕ };

    /// Reads bytes of the named file, from byte `at` on, to the front of `buf`, and reports how many; 0 is the end.
    fn read(&mut self, name: &str, at: u64, buf: &mut [u8]) -> Result<usize, PortError>
        requires { 0 < length buf.old }
        ensures bound { IfOk result (λ n. n ≤ length buf.new) }
        ensures contents { ReadsFile (contents self.old) (contents self.new) result name.now at buf.new }
        ensures failed_calls { NotesFailure (failed_calls self.old) (failed_calls self.new) result name.now FileCall.Read }
        ensures cause { HasCause (faults self.old) (faults self.new) result }
        ensures count { faults self.new ≡ counted (faults self.old) result };

    /// Writes the whole file in place of an old one. After an error anything may stand under its name.
    fn put(&mut self, name: &str, bytes: &[u8]) -> Result<(), PortError>
        ensures contents { PutsFile (contents self.old) (contents self.new) result name.now bytes.now }
        ensures failed_calls { NotesFailure (failed_calls self.old) (failed_calls self.new) result name.now FileCall.Put }
        ensures cause { HasCause (faults self.old) (faults self.new) result }
        ensures count { faults self.new ≡ counted (faults self.old) result };
}

/// Where bytes are printed. It tells the bytes that it took where it can, and always two counts: of faults, and of
/// its answers of out of memory. This project's own.
pub trait Sink {
    ghost taken: { Self → Option (List ℕ) };

    ghost faults: { Self → ℕ };

    ghost memory_faults: { Self → ℕ };

    /// Prints bytes of the front of `bytes`, and reports how many.
    fn write(&mut self, bytes: &[u8]) -> Result<usize, PortError>
        requires { 0 < length bytes.now }
        ensures bound { IfOk result (λ n. (0 < n) × (n ≤ length bytes.now)) }
        ensures taken { Takes (taken self.old) (taken self.new) result bytes.now }
        ensures cause { HasCause (faults self.old) (faults self.new) result }
        ensures count { faults self.new ≡ counted (faults self.old) result }
        ensures memory_count { memory_faults self.new ≡ counted_memory (memory_faults self.old) result };
}
