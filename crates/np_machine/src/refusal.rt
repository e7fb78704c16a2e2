/// The rules by which a side refuses a whole message, in the order in which they are tried. (This project's own.)
#[derive(Clone, Copy, Debug, PartialEq, Eq)]
pub enum Rule {
    /// The kind of message doesn't come from that side.
    WrongKind,
    /// The call doesn't fit the calls that are open.
    Place,
    /// A further call came while one is deferred.
    Held,
    /// The reply answers no open call.
    Unmatched,
    /// A name that isn't known.
    Unknown,
    /// A release of more references than are out.
    TooMany,
    /// A stored count would pass its greatest value.
    CountFull,
}

/// How a side refuses a message: the place of the message among those that reached the side, from 0, the rule, and two
/// numbers of that rule. The second number of `Held` is the place of another message. (This project's own.)
#[derive(Clone, Copy, Debug, PartialEq, Eq)]
pub struct Refusal {
    pub place: usize,
    pub rule: Rule,
    pub first: u32,
    pub second: u32,
}
