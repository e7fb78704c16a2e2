//! How the reading of a file comes to its end.

use np_model::Refusal;

/// How the reading of a file came to its end. (This project's own.)
#[derive(Clone, Copy, Debug, PartialEq, Eq)]
pub enum Outcome {
    /// At the end of the file, with this many bytes of an unfinished message.
    Ended(u64),
    /// At a message that is refused, or for the length of the file.
    Refused(Refusal),
    /// At a read that failed.
    FileFailed,
}
