//! The two calls of files.

/// Which call of files it was. This project's own.
#[derive(Clone, Copy, Debug, PartialEq, Eq)]
pub enum FileCall {
    /// A call of `read`.
    Read,
    /// A call of `put`.
    Put,
}
