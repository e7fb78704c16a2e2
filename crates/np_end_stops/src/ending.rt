//! How the exchange with a peer ends.

use np_model::Refusal;

/// Why the exchange with the peer ends. (This project's own.)
#[derive(Clone, Copy, Debug, PartialEq, Eq)]
pub enum Ending {
    /// Shutdown was answered, and all messages were sent.
    Done,
    /// Shutdown was answered, but the peer failed while messages were sent.
    Unsent,
    /// The peer ended while this end waited.
    Ended,
    /// The peer failed while this end waited.
    Failed,
    /// What the peer sent was refused.
    Refused(Refusal),
}
