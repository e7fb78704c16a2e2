//! What the body of a method, a handler or a task does, action by action.

use np_idents::IdKey;
use np_values::{NpReason, Ranges, Seq, Text, Value};

/// What an action or a command reads: a register, or a constant, which is never an object.
#[derive(Drop)]
pub enum Operand {
    /// The register with this number, 0 to 15.
    Reg(u8),
    Const(Value),
}

/// Operands, in the order of their line.
pub type Operands = Seq<Operand>;

/// An action. Registers are 0 to 15, slots 0 to 7. (This project's own; the calls are those of
/// npruntime.h, NPClass, and npfunctions.h, NPNetscapeFuncs.)
#[derive(Drop)]
pub enum Action {
    /// `set R V`
    Set(u8, Operand),
    /// `add R V V`
    Add(u8, Operand, Operand),
    /// `fail`
    Fail,
    /// `return V`
    Return(Operand),
    /// `throw TEXT`
    Throw(Text),
    /// `new R TEXT`
    New(u8, Text),
    /// `drop R`
    Drop(u8),
    /// `slot N V`
    Slot(u8, Operand),
    /// `load R N`
    Load(u8, u8),
    /// `self R`
    SelfTo(u8),
    /// `invoke R V ID V*`, with at most 8 arguments
    Invoke(u8, Operand, IdKey, Operands),
    /// `calldef R V V*`, with at most 8 arguments
    CallDefault(u8, Operand, Operands),
    /// `construct R V V*`, with at most 8 arguments
    Construct(u8, Operand, Operands),
    /// `get R V ID`
    Get(u8, Operand, IdKey),
    /// `put V ID V`
    Put(Operand, IdKey, Operand),
    /// `remove V ID`
    Remove(Operand, IdKey),
    /// `hasm V ID`
    HasMethod(Operand, IdKey),
    /// `hasp V ID`
    HasProperty(Operand, IdKey),
    /// `enum R V`
    Enumerate(u8, Operand),
    /// `window R`, of a plug-in alone
    Window(u8),
    /// `geturl R V INT`, of a plug-in alone
    GetUrl(u8, Operand, i32),
    /// `reqread R V` and one to four pairs `INT N`, of a plug-in alone
    RequestRead(u8, Operand, Ranges),
    /// `endstream R V N`, of a plug-in alone
    EndStream(u8, Operand, NpReason),
    /// `later TEXT`, of a plug-in alone
    Later(Text),
    /// `note V`
    Note(Operand),
    /// `destroy R N`, of a page alone; instances are 1 to 255
    Destroy(u8, u8),
    /// `ontrue N`, with N 1 to 255
    OnTrue(u8),
    /// `onfalse N`, with N 1 to 255
    OnFalse(u8),
    /// `oneq V V N`, with N 1 to 255
    OnEq(Operand, Operand, u8),
    /// `exit N`, of a plug-in alone, with N 0 to 63
    Exit(u8),
}

/// The actions of a body, at most 256.
pub type Body = Seq<Action>;
