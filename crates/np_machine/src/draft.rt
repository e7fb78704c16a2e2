use np_idents::Op;
use np_message::{Depth, Payload};

/// What a message says, without its references: those are the values that were handed over to it.
/// (This project's own.)
#[derive(Drop)]
pub enum Draft {
    /// A call. The first value is the target, the others are the arguments.
    CallDraft(Op),
    /// A reply with the one value.
    ValueDraft,
    /// A payload that carries no reference. Nothing may have been handed over.
    PlainDraft(Payload),
}

/// A message that a plan sends. Its releases are those that are pending.
#[derive(Drop)]
pub struct Sending {
    pub depth: Depth,
    pub draft: Draft,
}
