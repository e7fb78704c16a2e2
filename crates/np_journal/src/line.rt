use crate::{Printed, Streamed};
use np_idents::Op;
use np_values::{Handler, Name, Text, Value};

/// What a line of a journal says. Its bytes are the definition `line_text`. (This project's own.)
#[derive(Drop)]
pub enum Line {
    /// The object was made.
    Created(Name),
    /// An entry of the object is run.
    Entered(Name, Op),
    /// A handler of the instance is run.
    HandlerRun(u8, Handler),
    /// A task of the instance is begun.
    TaskBegun(u8, Text),
    /// The proxy of the other side's object was invalidated.
    ProxyGone(Name),
    /// The object was invalidated.
    Invalidated(Name),
    /// The object was deallocated.
    Deallocated(Name),
    /// A body noted a value; true where it names an object of a dead instance.
    Noted(Value, bool),
    /// A task of the instance was dropped, since the queue was full.
    QueueFull(u8, Text),
    /// A call of the stream with this number was answered.
    StreamAnswered(u32, Streamed),
    /// The command with this number, from 1, has its result.
    CommandResult(u32, Printed),
}
