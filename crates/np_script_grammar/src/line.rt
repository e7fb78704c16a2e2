//! The parts of a line.

use crate::action::Operand;
use np_idents::IdKey;
use np_values::{Handler, Text};

/// What a line has at a place after its first word.
#[derive(Clone, Copy, Debug, PartialEq, Eq)]
pub enum Item {
    /// R: `$0` to `$15`.
    Register,
    /// V: a register, `void`, `null`, `true`, `false`, INT, `d:` and 16 digits, or TEXT.
    Operand,
    /// INT: a number of 32 bits with a sign.
    Integer,
    /// N: a number within these bounds.
    Number(u32, u32),
    /// TEXT.
    Text,
    /// ID: TEXT, of fewer bytes, or INT.
    Identifier,
    /// `embed` or `full`.
    Mode,
    /// The word of a handler.
    HandlerWord,
}

/// What a line says at such a place.
#[derive(Drop)]
pub enum Field {
    Register(u8),
    Operand(Operand),
    Integer(i32),
    Number(u32),
    Text(Text),
    Identifier(IdKey),
    Mode(u8),
    HandlerWord(Handler),
}
