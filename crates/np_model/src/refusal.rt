ghost use Rattle.std.specs.Prelude.{◌≡◌};
ghost use Rattle.np_model.specs.Refused.{refusal_of};

use np_message::{WireError, WireKind};

/// The rules by which an end refuses what the other end sent, in the order in which they are tried.
#[derive(Clone, Copy, Debug, PartialEq, Eq)]
pub enum Rule {
    Bytes,
    Length,
    Item,
    Rest,
    WrongKind,
    Place,
    Held,
    Unmatched,
    Unknown,
    TooMany,
    CountFull,
}

/// What an end refused: a place among all bytes that it was given, the rule, and two numbers of that rule.
#[derive(Clone, Copy, Debug, PartialEq, Eq)]
pub struct Refusal {
    pub at: u64,
    pub rule: Rule,
    pub first: u64,
    pub second: u64,
}

/// The most bytes that are read of the other program, or of a file that is shown.
pub const BYTE_LIMIT: u64 = 1 << 40;

/// How the bytes after so many are refused.
pub const TOO_MANY_BYTES: Refusal = Refusal {
    at: BYTE_LIMIT,
    rule: Rule::Bytes,
    first: BYTE_LIMIT,
    second: 0,
};

impl Refusal {
    /// How an end refuses the bytes that have this fault.
    pub fn of_fault(error: WireError) -> Refusal
        ensures value { result ≡ refusal_of error }
    {
        let rule = match error.kind {
            WireKind::Length => Rule::Length,
            WireKind::Item => Rule::Item,
            WireKind::Rest => Rule::Rest,
        };
        Refusal {
            at: error.at,
            rule,
            first: error.first,
            second: error.second,
        }
    }
}
