//! Plug-in scripts.

use crate::action::Body;
use crate::class::Classes;
use np_values::{Handler, Seq, Text};

/// What a plug-in does when it is called.
#[derive(Drop)]
pub struct HandlerDef {
    pub which: Handler,
    pub body: Body,
}

/// The handlers of a plug-in, each at most once, in the order of their lines.
pub type Handlers = Seq<HandlerDef>;

/// What a plug-in does later. (npapi.h, NPN_PluginThreadAsyncCall.)
#[derive(Drop)]
pub struct TaskDef {
    pub name: Text,
    pub body: Body,
}

/// The tasks of a plug-in, at most 32 and no two of one name, in the order of their lines.
pub type Tasks = Seq<TaskDef>;

/// A plug-in script: the version of the plug-in interface that the plug-in speaks, and what it does.
#[derive(Drop)]
pub struct Plugin {
    pub major: u8,
    pub minor: u8,
    pub classes: Classes,
    pub handlers: Handlers,
    pub tasks: Tasks,
}
