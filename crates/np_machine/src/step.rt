use crate::{Continuation, Entry, Place};
use np_idents::IdKey;
use np_journal::Line;
use np_values::{Name, Seq, Text, Value};

/// A file that the page puts: the content of a resource, for a stream. (Gecko Plugin API Reference, NPP_StreamAsFile.)
#[derive(Clone, Copy, Debug, PartialEq, Eq)]
pub struct PutFile {
    pub stream: u32,
    /// The place of the resource among those of the page, from 0.
    pub resource: usize,
}

/// The smallest thing that a side does. Where a step doesn't fit, it changes nothing. (This project's own.)
#[derive(Drop)]
pub enum Step {
    /// The value of the place comes in flight, and stays in the place.
    Copy(Place),
    /// A value that names no object comes in flight.
    Constant(Value),
    /// The next value in flight and the value of the place change places.
    Put(Place),
    /// A stored property of an object goes, and its value comes in flight.
    Remove(Name, IdKey),
    /// The next value in flight is dropped.
    Drop,
    /// So many values in flight are dropped, one after another. After each the deallocation queue is served.
    DropEach(usize),
    /// The next value in flight goes after so many others.
    MoveAfter(usize),
    /// An object of the instance, where that was begun, and of the class is made, and comes in flight.
    Create(u8, u32),
    /// A frame is pushed. Its arguments, so many, and then its object are taken from flight.
    Enter(usize, Entry),
    /// The newest frame is popped. Its registers and its object come in flight, after so many values.
    Leave(usize),
    /// The newest frame has done so many actions more.
    Advance(usize),
    /// The newest frame's flag becomes this.
    SetFlag(bool),
    /// The newest frame notes an exception.
    NoteException(Text),
    /// The newest frame waits for a result.
    Await(Continuation),
    /// The newest frame waits no longer.
    Resume,
    /// The next value in flight is handed over to the message that is being made.
    HandOver,
    /// The message that was examined last is delivered: its references come in flight, and its releases count.
    Deliver,
    /// Each own object that nothing refers to is queued for deallocation.
    Sweep,
    /// The deallocation queue is served until it is empty.
    Deallocate,
    /// The instance with this number begins.
    Begin(u8),
    /// The instance, where it is live, is being destroyed.
    MarkDestroying(u8),
    /// The instance is torn down on this side.
    TearDown(u8),
    /// A file is put.
    File(PutFile),
    /// The journal gets the line.
    Print(Line),
}

/// The steps of a plan, in their order.
pub type Steps = Seq<Step>;
