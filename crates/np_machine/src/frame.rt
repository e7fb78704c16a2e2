use np_message::Depth;
use np_values::{Handler, Text, Value, Values};

/// What becomes of the result of a call when it comes: which register gets what. (This project's own.)
#[derive(Clone, Copy, Debug, PartialEq, Eq)]
pub enum Continuation {
    /// The register gets the value, or Void.
    Assign(u8),
    /// The same of a call whose result is an object or none.
    AssignObject(u8),
    /// The register gets the number of identifiers.
    AssignCount(u8),
    /// The register gets the code.
    AssignCode(u8),
    /// The instance is torn down, and the register gets the code: first the instance, then the register.
    AssignDestroyed(u8, u8),
    /// Nothing is kept of the result.
    Discard,
}

/// Who gets the result of a body that runs. (This project's own.)
#[derive(Clone, Copy, Debug, PartialEq, Eq)]
pub enum Caller {
    /// The frame below it.
    FrameBelow,
    /// The command of the page.
    Command,
    /// The other side, which called an object at this depth.
    RemoteCall(Depth),
    /// The other side, which called a handler. For NPP_Write the last number is the length of the data.
    HandlerCall(Depth, Handler, u16),
    /// Nobody: the body is a task's.
    NoCaller,
}

/// Where a body is in the script of its side. All places count from 0.
#[derive(Clone, Copy, Debug, PartialEq, Eq)]
pub enum BodyId {
    /// The class, and the member of that class.
    Member(u32, usize),
    Handler(usize),
    Task(usize),
}

/// What a new frame is made of, besides its object and its arguments.
#[derive(Clone, Copy, Debug, PartialEq, Eq)]
pub struct Entry {
    pub instance: u8,
    pub depth: u8,
    pub caller: Caller,
    pub body: BodyId,
}

/// How far a frame is in its body.
#[derive(Drop)]
pub struct Progress {
    /// Whether the last call that the body made succeeded.
    pub flag: bool,
    /// The exception that the body noted. (npruntime.h, NPN_SetException.)
    pub exception: Option<Text>,
    /// How many actions of the body are done.
    pub done: usize,
    /// What becomes of the result that the frame waits for.
    pub awaits: Option<Continuation>,
}

/// An activation record: the body of a method, a handler or a task that runs. (This project's own.)
#[derive(Drop)]
pub struct Frame {
    pub instance: u8,
    /// The depth of its call, from 1. A task's body has depth 0.
    pub depth: u8,
    pub caller: Caller,
    pub body: BodyId,
    /// The object whose method runs, or Null in a handler or a task.
    pub this: Value,
    pub registers: Values,
    pub progress: Progress,
}
