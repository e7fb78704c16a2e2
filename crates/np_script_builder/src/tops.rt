//! The head of a script, and the lines between its declarations.

ghost use Rattle.std.specs.Prelude.{◌≡◌, ◌++◌, IfOk, OnOk};
ghost use Rattle.np_script_grammar.specs.Scripts.{copies};
ghost use Rattle.np_script_grammar.specs.Takes.{Gives as MayGive};
ghost use Rattle.np_script_builder.specs.Building.{built_head, built_resource, built_at_top, opened, opened_class, opened_handler, opened_task, said_resource, Builds, Gives};

use crate::state::{Building, Unfinished};
use np_script_grammar::{Body, ClassDef, Fields, HandlerDef, Members, Resource, TaskDef};
use np_values::{Bytes, NoMemory};
use std::alloc::Global;

/// `class TEXT N`
fn class(alloc: Global, mut fields: Fields) -> Option<ClassDef>
    ensures value { result ≡ opened_class fields }
{
    let name = fields.text()?;
    let version = fields.byte()?;
    fields.end()?;
    Some(ClassDef {
        name,
        version,
        stored: false,
        members: Members::new(alloc),
    })
}

/// Puts a piece after the bytes.
fn put(bytes: &mut Bytes, piece: &[u8]) -> Result<(), NoMemory>
    ensures ok { OnOk result (bytes.new ≡ bytes.old ++ piece.now) }
{
    for byte in piece {
        bytes.push(*byte)?;
    }
    Ok(())
}

/// This many copies of a piece, one after another.
#[tactic(auto, using(crate::proofs::Contents::one_more_copy))]
fn content(alloc: Global, times: u32, piece: &[u8]) -> Result<Bytes, NoMemory>
    ensures value { IfOk result (λ bytes. bytes ≡ copies times piece.now) }
{
    let mut bytes = Bytes::new(alloc);
    // An empty piece may come millions of times.
    if piece.is_empty() {
        return Ok(bytes);
    }
    for _time in 0..times {
        put(&mut bytes, piece)?;
    }
    Ok(bytes)
}

/// `resource TEXT TEXT N TEXT`
fn resource(alloc: Global, mut fields: Fields) -> Result<Option<Resource>, NoMemory>
    ensures value { MayGive result (said_resource fields) }
{
    let Some(url) = fields.text() else {
        return Ok(None);
    };
    let Some(mime) = fields.text() else {
        return Ok(None);
    };
    let Some(times) = fields.number() else {
        return Ok(None);
    };
    let Some(piece) = fields.text() else {
        return Ok(None);
    };
    let Some(()) = fields.end() else {
        return Ok(None);
    };
    let content = content(alloc, times, piece.as_str().as_bytes())?;
    Ok(Some(Resource {
        url,
        mime,
        times,
        piece,
        content,
    }))
}

/// `handler` and its word
fn handler(alloc: Global, mut fields: Fields) -> Option<HandlerDef>
    ensures value { result ≡ opened_handler fields }
{
    let which = fields.handler()?;
    fields.end()?;
    Some(HandlerDef {
        which,
        body: Body::new(alloc),
    })
}

/// `task TEXT`
fn task(alloc: Global, mut fields: Fields) -> Option<TaskDef>
    ensures value { result ≡ opened_task fields }
{
    let name = fields.text()?;
    fields.end()?;
    Some(TaskDef {
        name,
        body: Body::new(alloc),
    })
}

/// The line that opens a declaration.
fn opens(alloc: Global, word: &[u8], fields: Fields) -> Option<Unfinished>
    ensures value { result ≡ opened word.now fields }
{
    if word == b"class".as_slice() {
        let class = class(alloc, fields)?;
        Some(Unfinished::OfClass(class))
    } else if word == b"handler".as_slice() {
        let handler = handler(alloc, fields)?;
        Some(Unfinished::OfHandler(handler))
    } else if word == b"task".as_slice() {
        let task = task(alloc, fields)?;
        Some(Unfinished::OfTask(task))
    } else {
        None
    }
}

impl Building {
    /// The line of the version.
    pub(crate) fn head(&mut self, mut fields: Fields) -> Option<()>
        ensures value { Builds result self.new (built_head self.old fields) }
    {
        let major = fields.byte()?;
        let minor = fields.byte()?;
        fields.end()?;
        self.major = major;
        self.minor = minor;
        Some(())
    }

    /// A resource, which is complete with its line.
    fn resource(&mut self, alloc: Global, fields: Fields) -> Result<Option<()>, NoMemory>
        ensures value { Gives result self.new (built_resource self.old fields) }
    {
        let Some(resource) = resource(alloc, fields)? else {
            return Ok(None);
        };
        self.resources.push(resource)?;
        Ok(Some(()))
    }

    /// A line between declarations.
    pub(crate) fn top(
        &mut self,
        alloc: Global,
        word: &[u8],
        fields: Fields,
    ) -> Result<Option<()>, NoMemory>
        ensures value { Gives result self.new (built_at_top self.old word.now fields) }
    {
        if word == b"resource".as_slice() {
            return self.resource(alloc, fields);
        }
        if word == b"do".as_slice() {
            return Ok(fields.end());
        }
        let Some(unfinished) = opens(alloc, word, fields) else {
            return Ok(None);
        };
        self.unfinished = unfinished;
        Ok(Some(()))
    }
}
