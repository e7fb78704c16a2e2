ghost use Rattle.std.specs.Prelude.{◌≡◌, ◌≤◌, ◌++◌, [], ◌∷◌, length, take, drop, ℕ, List, Ok, OnOk, OnErr};
ghost use Rattle.np_journal.specs.Line.{line_text, journal_text};
ghost use Rattle.np_journal.specs.declared.line.Line.TheVariants.{Created, Entered, HandlerRun, TaskBegun, ProxyGone, Invalidated, Deallocated, Noted, QueueFull, StreamAnswered, CommandResult};

use crate::printing::{
    push_entry, push_handler, push_named, push_result, push_stream, push_task, push_value,
};
use crate::{Line, Printed, Streamed};
use np_idents::Op;
use np_values::{Handler, Name, NoMemory, Text, Value};
use std::alloc::Global;
use std::marker::Model;

/// The lines that a side printed and that weren't taken yet, seen as their bytes. After an error it is as it was.
#[derive(Drop)]
pub struct Journal {
    bytes: Vec<u8>,
}

impl Model for Journal {
    ghost use Rattle.std.specs.Prelude.{List, ℕ};

    ghost Value = { List ℕ };

    ghost view = { λ j. j.bytes.items };
}

/// Ends the line that begins at this place, or takes it back where it wasn't printed whole.
fn end_line(bytes: &mut Vec<u8>, start: usize, pushed: Result<(), NoMemory>) -> Result<(), NoMemory>
    requires within { start ≤ length bytes.old.items }
    ensures ok { OnOk result ((pushed ≡ Ok tt) × (bytes.new.items ≡ bytes.old.items ++ 10 ∷ [])) }
    ensures err { OnErr result (bytes.new.items ≡ take start bytes.old.items) }
{
    match pushed {
        Ok(()) => {
            if bytes.push(b'\n').is_ok() {
                return Ok(());
            }
            bytes.truncate(start);
            Err(NoMemory)
        }
        Err(NoMemory) => {
            bytes.truncate(start);
            Err(NoMemory)
        }
    }
}

impl Journal {
    /// No line. It takes no memory yet.
    pub fn new(alloc: Global) -> Journal
        ensures value { result ≡ [] }
    {
        Journal {
            bytes: Vec::new(alloc),
        }
    }

    /// The bytes of the lines.
    pub fn bytes(&self) -> &[u8]
        ensures same { result.now ≡ self.now }
    {
        self.bytes.as_slice()
    }

    /// Takes so many bytes from the front: they were written elsewhere.
    pub fn cut(&mut self, n: usize)
        requires within { n ≤ length self.old }
        ensures value { self.new ≡ drop n self.old }
    {
        self.bytes.rotate_left(n);
        let left = self.bytes.len() - n;
        self.bytes.truncate(left);
    }

    /// The object was made.
    pub fn created(&mut self, name: Name) -> Result<(), NoMemory>
        ensures ok { OnOk result (self.new ≡ self.old ++ line_text (Created name)) }
        ensures err { OnErr result (self.new ≡ self.old) }
    {
        let start = self.bytes.len();
        let pushed = push_named(&mut self.bytes, "+ ", name);
        end_line(&mut self.bytes, start, pushed)
    }

    /// An entry of the object is run.
    pub fn entered(&mut self, name: Name, op: &Op) -> Result<(), NoMemory>
        ensures ok { OnOk result (self.new ≡ self.old ++ line_text (Entered name op.now)) }
        ensures err { OnErr result (self.new ≡ self.old) }
    {
        let start = self.bytes.len();
        let pushed = push_entry(&mut self.bytes, name, op);
        end_line(&mut self.bytes, start, pushed)
    }

    /// A handler of the instance is run.
    pub fn handler(&mut self, instance: u8, which: Handler) -> Result<(), NoMemory>
        ensures ok { OnOk result (self.new ≡ self.old ++ line_text (HandlerRun instance which)) }
        ensures err { OnErr result (self.new ≡ self.old) }
    {
        let start = self.bytes.len();
        let pushed = push_handler(&mut self.bytes, instance, which);
        end_line(&mut self.bytes, start, pushed)
    }

    /// A task of the instance is begun.
    pub fn task(&mut self, instance: u8, name: &Text) -> Result<(), NoMemory>
        ensures ok { OnOk result (self.new ≡ self.old ++ line_text (TaskBegun instance name.now)) }
        ensures err { OnErr result (self.new ≡ self.old) }
    {
        let start = self.bytes.len();
        let pushed = push_task(&mut self.bytes, "> inst:", instance, " task ", name);
        end_line(&mut self.bytes, start, pushed)
    }

    /// The proxy of the other side's object was invalidated.
    pub fn proxy_gone(&mut self, name: Name) -> Result<(), NoMemory>
        ensures ok { OnOk result (self.new ≡ self.old ++ line_text (ProxyGone name)) }
        ensures err { OnErr result (self.new ≡ self.old) }
    {
        let start = self.bytes.len();
        let pushed = push_named(&mut self.bytes, "x ", name);
        end_line(&mut self.bytes, start, pushed)
    }

    /// The object was invalidated.
    pub fn invalid(&mut self, name: Name) -> Result<(), NoMemory>
        ensures ok { OnOk result (self.new ≡ self.old ++ line_text (Invalidated name)) }
        ensures err { OnErr result (self.new ≡ self.old) }
    {
        let start = self.bytes.len();
        let pushed = push_named(&mut self.bytes, "! ", name);
        end_line(&mut self.bytes, start, pushed)
    }

    /// The object was deallocated.
    pub fn freed(&mut self, name: Name) -> Result<(), NoMemory>
        ensures ok { OnOk result (self.new ≡ self.old ++ line_text (Deallocated name)) }
        ensures err { OnErr result (self.new ≡ self.old) }
    {
        let start = self.bytes.len();
        let pushed = push_named(&mut self.bytes, "- ", name);
        end_line(&mut self.bytes, start, pushed)
    }

    /// A body noted the value; `dead` says that it names an object of a dead instance.
    pub fn note(&mut self, value: &Value, dead: bool) -> Result<(), NoMemory>
        ensures ok { OnOk result (self.new ≡ self.old ++ line_text (Noted value.now dead)) }
        ensures err { OnErr result (self.new ≡ self.old) }
    {
        let start = self.bytes.len();
        let pushed = push_value(&mut self.bytes, "n ", value, dead);
        end_line(&mut self.bytes, start, pushed)
    }

    /// A task of the instance was dropped, since the queue was full.
    pub fn queue_full(&mut self, instance: u8, name: &Text) -> Result<(), NoMemory>
        ensures ok { OnOk result (self.new ≡ self.old ++ line_text (QueueFull instance name.now)) }
        ensures err { OnErr result (self.new ≡ self.old) }
    {
        let start = self.bytes.len();
        let pushed = push_task(&mut self.bytes, "q inst:", instance, " ", name);
        end_line(&mut self.bytes, start, pushed)
    }

    /// A call of the stream with this number was answered.
    pub fn stream(&mut self, stream: u32, call: Streamed) -> Result<(), NoMemory>
        ensures ok { OnOk result (self.new ≡ self.old ++ line_text (StreamAnswered stream call)) }
        ensures err { OnErr result (self.new ≡ self.old) }
    {
        let start = self.bytes.len();
        let pushed = push_stream(&mut self.bytes, stream, call);
        end_line(&mut self.bytes, start, pushed)
    }

    /// The command with this number, from 1, has its result.
    pub fn result(&mut self, command: u32, printed: &Printed) -> Result<(), NoMemory>
        ensures ok { OnOk result (self.new ≡ self.old ++ line_text (CommandResult command printed.now)) }
        ensures err { OnErr result (self.new ≡ self.old) }
    {
        let start = self.bytes.len();
        let pushed = push_result(&mut self.bytes, command, printed);
        end_line(&mut self.bytes, start, pushed)
    }

    /// Prints a line.
    pub fn print(&mut self, line: &Line) -> Result<(), NoMemory>
        ensures ok { OnOk result (self.new ≡ self.old ++ line_text line.now) }
        ensures err { OnErr result (self.new ≡ self.old) }
    {
        match line {
            Line::Created(name) => self.created(*name),
            Line::Entered(name, op) => self.entered(*name, op),
            Line::HandlerRun(instance, which) => self.handler(*instance, *which),
            Line::TaskBegun(instance, name) => self.task(*instance, name),
            Line::ProxyGone(name) => self.proxy_gone(*name),
            Line::Invalidated(name) => self.invalid(*name),
            Line::Deallocated(name) => self.freed(*name),
            Line::Noted(value, dead) => self.note(value, *dead),
            Line::QueueFull(instance, name) => self.queue_full(*instance, name),
            Line::StreamAnswered(stream, call) => self.stream(*stream, *call),
            Line::CommandResult(command, printed) => self.result(*command, printed),
        }
    }
}
