//! The commands of a page.

use crate::action::{Operand, Operands};
use np_idents::IdKey;
use np_values::{Seq, Text, Texts};

/// npapi.h, the mode of an instance that is a part of its page.
pub const NP_EMBED: u8 = 1;

/// npapi.h, the mode of an instance that has a page of its own.
pub const NP_FULL: u8 = 2;

/// A command of a page. Registers are 0 to 15, instances 1 to 255. (This project's own; the calls are
/// those of npfunctions.h, NPPluginFuncs, and npruntime.h, NPClass.)
#[derive(Drop)]
pub enum Command {
    /// `create TEXT MODE` and at most three pairs `TEXT TEXT`: NPP_New of the next instance. The mode is
    /// `NP_EMBED` or `NP_FULL`; the attributes are names and values in turn.
    Create {
        mime: Text,
        mode: u8,
        attributes: Texts,
    },
    /// `destroy N`
    Destroy(u8),
    /// `scriptable R N`
    Scriptable(u8, u8),
    /// `new R N TEXT`
    New(u8, u8, Text),
    /// `set R V`
    Set(u8, Operand),
    /// `drop R`
    Drop(u8),
    /// `invoke R V ID V*`, with at most 8 arguments
    Invoke(u8, Operand, IdKey, Operands),
    /// `calldef R V V*`, with at most 8 arguments
    CallDefault(u8, Operand, Operands),
    /// `construct R V V*`, with at most 8 arguments
    Construct(u8, Operand, Operands),
    /// `get R V ID`
    Get(u8, Operand, IdKey),
    /// `put V ID V`
    Put(Operand, IdKey, Operand),
    /// `remove V ID`
    Remove(Operand, IdKey),
    /// `hasm V ID`
    HasMethod(Operand, IdKey),
    /// `hasp V ID`
    HasProperty(Operand, IdKey),
    /// `enum R V`
    Enumerate(u8, Operand),
    /// `note V`
    Note(Operand),
    /// `turn`
    Turn,
    /// `open N TEXT`
    OpenStream(u8, Text),
    /// `pump N`, with N 1 to 100,000
    Pump(u32),
}

/// The commands of a page, in their order.
pub type Commands = Seq<Command>;
