//! How far a run of an end has come.

use np_model::Refusal;

/// How far a run of an end has come. (This project's own.)
#[derive(Clone, Copy, Debug, PartialEq, Eq)]
pub enum Halt {
    /// It needs a message that isn't whole yet.
    Waiting,
    /// Its side has ended. What came after the last message is left unread and never examined.
    Finished,
    /// It refused what the other side sent, and nothing of that took effect.
    Refused(Refusal),
}
