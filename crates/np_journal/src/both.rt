//! What a run of both sides leaves.

use crate::Journal;
use np_values::Side;

/// The journals of a run of both sides: the page's, which the host prints, and the plug-in's. (This project's own.)
#[derive(Drop)]
pub struct Journals {
    pub host: Journal,
    pub plug: Journal,
}

/// Why a run of both sides has no journals. (This project's own.)
#[derive(Clone, Copy, Debug, PartialEq, Eq)]
pub enum RunEnd {
    /// The actions of this side reached their limit.
    Spent(Side),
    NoMemory,
}
