//! What a page's plans keep besides its places.

use crate::{PumpedCall, Streams};
use np_journal::Printed;
use np_machine::Continuation;
use np_message::Message;
use np_script_grammar::Commands;
use np_values::NpError;

/// The call of a page's command that awaits its reply. (npfunctions.h, NPPluginFuncs; docs/WIRE.md.)
#[derive(Drop)]
pub enum Outstanding {
    Hello,
    /// NPP_New of this instance.
    New(u8),
    /// NPP_Destroy of this instance, at the end of the page.
    Destroy(u8),
    /// NPP_Destroy of this instance, by a command.
    DestroyCommand(u8),
    /// NPP_GetValue; the object goes to this register.
    Scriptable(u8),
    Turn,
    Shutdown,
    /// An object was called.
    Object(Continuation),
    /// A stream's call.
    Streaming(PumpedCall),
}

/// What a page knows of its plug-in. (This project's own.)
#[derive(Clone, Copy, Debug, PartialEq, Eq)]
pub enum PeerState {
    Compatible,
    /// It answered Hello by NPERR_INCOMPATIBLE_VERSION_ERROR.
    Incompatible,
    /// It ended, failed, or sent what was refused.
    Lost,
}

/// The line that a command owes whose plug-in was lost while it ran. (This project's own.)
#[derive(Clone, Copy, Debug, PartialEq, Eq)]
pub enum OwedLine {
    Nothing,
    Code(NpError),
    /// False.
    No,
    /// False, and what continues with the result gets Void.
    Failure(Continuation),
    /// How many stream calls were answered.
    Pumped(u32),
}

/// Where a page's commands are. (This project's own.)
#[derive(Drop)]
pub enum Stage {
    /// Hello is due.
    Start,
    /// The next command is due.
    Ready,
    /// The reply to this call.
    Awaiting(Outstanding),
    /// The result of a body of this side, which the command called.
    Running(Continuation),
    /// The command's result is there, and its line is due.
    LineDue(Continuation, Printed),
    /// So many turns of a pump are left, and so many calls were answered.
    Pumping(u32, u32),
    /// A file is to be put, and then this call is made.
    FileDue(PumpedCall),
    Ended,
    /// The budget of actions is exhausted.
    Exhausted,
    /// The plug-in was lost.
    Unanswered(OwedLine),
}

/// What a page's plans read and write besides its places. (This project's own.)
#[derive(Drop)]
pub struct PageControl {
    /// The commands that were not begun yet.
    pub commands: Commands,
    /// The number of the command that runs, or ran last, from 1; 0 before the first.
    pub number: u32,
    /// How many instances were begun.
    pub instances: u8,
    pub peer: PeerState,
    pub stage: Stage,
    /// The message that was delivered and is to be handled.
    pub arrived: Option<Message>,
    /// The place of the call that was deferred last, among the messages of the plug-in, counted from 0.
    pub deferred_place: usize,
    /// The streams that were begun and didn't end, in rising order of their numbers.
    pub streams: Streams,
    /// How many streams were begun.
    pub stream_count: u32,
    /// How many actions of the budget were done.
    pub actions_done: u32,
}
