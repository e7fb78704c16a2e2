//! An end, as the exchange with the other program sees it.

ghost use Rattle.std.specs.Prelude.{◌≡◌, ◌+◌, ◌≤◌, ◌^◌, ◌++◌, List, ℕ, length, take, drop, OnOk, OnErr, IfOk};
ghost use Rattle.np_model.specs.Alone.{Role};
ghost use Rattle.np_endpoint.specs.End.{EndState, StandsFor, Keeps, RestsAs, total_of};
ghost use Rattle.np_endpoint.specs.Memory.{RunsOut};

use crate::Halt;
use np_values::NoMemory;

/// One side of a run, as a machine from the other side's bytes to its own. It reads and writes nothing
/// itself: its owner gives it bytes by `take`, lets it `run`, and writes out what is in `outgoing` and
/// `journal`. `Script` is what it was made of, `Control` where its side stands, and `role_of` what its side
/// does. This project's own.
pub trait Endpoint {
    ghost Script: { Type 0 };

    ghost Control: { Type 0 };

    ghost role_of: { Script → Role Control };

    ghost seen: { Self → EndState Script Control };

    /// The bytes of its side's messages that were not cut off by `sent`.
    fn outgoing(&self) -> &[u8]
        ensures same { result.now ≡ (seen self.now).outgoing };

    /// The bytes of its side's journal that were not cut off by `printed`.
    fn journal(&self) -> &[u8]
        ensures same { result.now ≡ (seen self.now).journal };

    /// Cuts the first n bytes off `outgoing`, which were written to the other side; 0 cuts nothing off.
    fn sent(&mut self, n: usize)
        requires within { n ≤ length (seen self.old).outgoing }
        ensures stands { (script : Script) (got sent printed : List ℕ) →
            StandsFor role_of script got sent printed (seen self.old) →
            StandsFor role_of script got (sent ++ take n (seen self.old).outgoing) printed (seen self.new) }
        ensures same { seen self.new ≡ record (seen self.old) { outgoing = drop n (seen self.old).outgoing } };

    /// Cuts the first n bytes off `journal`, which were printed; 0 cuts nothing off.
    fn printed(&mut self, n: usize)
        requires within { n ≤ length (seen self.old).journal }
        ensures stands { (script : Script) (got sent printed : List ℕ) →
            StandsFor role_of script got sent printed (seen self.old) →
            StandsFor role_of script got sent (printed ++ take n (seen self.old).journal) (seen self.new) }
        ensures same { seen self.new ≡ record (seen self.old) { journal = drop n (seen self.old).journal } };

    /// Gives it further bytes of the other side, in whatever chunks they come; they are copied. It takes at
    /// most 2^40 bytes in all. An `Err` means that memory ran out.
    fn take(&mut self, bytes: &[u8]) -> Result<(), NoMemory>
        requires room { total_of (seen self.old) + length bytes.now ≤ 2 ^ 40 }
        ensures stands { OnOk result ((script : Script) (got sent printed : List ℕ) →
            StandsFor role_of script got sent printed (seen self.old) →
            StandsFor role_of script (got ++ bytes.now) sent printed (seen self.new)) }
        ensures same { OnOk result (seen self.new ≡ record (seen self.old) { unread = (seen self.old).unread ++ bytes.now }) };

    /// Continues until it waits for a message that isn't whole yet, has ended, or refuses a message. An `Err`
    /// is out of memory, which comes in place of none of these: it comes only where memory had run out
    /// before, or where something that takes memory was due.
    fn run(&mut self) -> Result<Halt, NoMemory>
        ensures keeps { OnOk result (Keeps role_of (seen self.old) (seen self.new)) }
        ensures rests { IfOk result (λ halt. RestsAs role_of (seen self.new) halt) }
        ensures total { OnOk result (total_of (seen self.new) ≡ total_of (seen self.old)) }
        ensures memory { OnErr result (RunsOut role_of (seen self.old) (seen self.new)) };
}
