//! What a read of the peer brings.

/// What one read of the other program gave. (This project's own.)
#[derive(Clone, Copy, Debug, PartialEq, Eq)]
pub enum Heard {
    /// This many bytes, which the end was given.
    Bytes(usize),
    Ended,
    Failed,
}
