//! What a plug-in's plans keep besides its places.

use np_message::Message;
use np_values::{Seq, Text};

/// Where a plug-in is. (This project's own.)
#[derive(Clone, Copy, Debug, PartialEq, Eq)]
pub enum PluginStage {
    Serving,
    /// It answered Shutdown.
    Ended,
    /// It ran `exit` with this number, and ends with the status 64 more.
    Exited(u8),
    /// The budget of actions is exhausted.
    Exhausted,
}

/// A task that is to be run. (npfunctions.h, NPN_PluginThreadAsyncCall.)
#[derive(Drop)]
pub struct QueuedTask {
    pub instance: u8,
    pub name: Text,
}

/// What a plug-in's plans read and write besides its places. (This project's own.)
#[derive(Drop)]
pub struct PluginControl {
    pub stage: PluginStage,
    /// The message that was delivered and is to be handled.
    pub arrived: Option<Message>,
    /// The next task first.
    pub queue: Seq<QueuedTask>,
    /// How many actions of the budget were done.
    pub actions_done: u32,
}
