//! The lines of the bodies of handlers and tasks, those of commands, and a line at any place.

ghost use Rattle.std.specs.Prelude.{codes};
ghost use Rattle.np_script_builder.specs.Building.{built_in_body, built_command, built_after, Gives};

use crate::state::{Building, Unfinished};
use np_script_actions::{action, command};
use np_script_grammar::{Fields, Place};
use np_values::NoMemory;
use std::alloc::Global;
use std::mem;

impl Building {
    /// The end of the body of a handler or a task.
    fn end_body(&mut self, fields: Fields) -> Result<Option<()>, NoMemory>
        ensures value { Gives result self.new (built_in_body self.old self.old.unfinished (codes "end") fields) }
    {
        let Some(()) = fields.end() else {
            return Ok(None);
        };
        match mem::replace(&mut self.unfinished, Unfinished::Nothing) {
            Unfinished::OfHandler(handler) => self.handlers.push(handler)?,
            Unfinished::OfTask(task) => self.tasks.push(task)?,
            _ => return Ok(None),
        }
        Ok(Some(()))
    }

    /// A line in the body of a handler or a task.
    fn body(&mut self, alloc: Global, word: &[u8], fields: Fields) -> Result<Option<()>, NoMemory>
        ensures value { Gives result self.new (built_in_body self.old self.old.unfinished word.now fields) }
    {
        if word == b"end".as_slice() {
            return self.end_body(fields);
        }
        let Some(action) = action(alloc, word, fields)? else {
            return Ok(None);
        };
        match &mut self.unfinished {
            Unfinished::OfHandler(handler) => handler.body.push(action)?,
            Unfinished::OfTask(task) => task.body.push(action)?,
            _ => return Ok(None),
        }
        Ok(Some(()))
    }

    /// A line after `do`.
    fn command(
        &mut self,
        alloc: Global,
        word: &[u8],
        fields: Fields,
    ) -> Result<Option<()>, NoMemory>
        ensures value { Gives result self.new (built_command self.old word.now fields) }
    {
        let Some(command) = command(alloc, word, fields)? else {
            return Ok(None);
        };
        self.commands.push(command)?;
        Ok(Some(()))
    }

    /// A line at this place; `None` where it says nothing there.
    #[tactic(auto, unfolding(crate::specs::Building::built_after))]
    pub(crate) fn line(
        &mut self,
        alloc: Global,
        place: Place,
        word: &[u8],
        fields: Fields,
    ) -> Result<Option<()>, NoMemory>
        ensures value { Gives result self.new (built_after place self.old (word.now, fields)) }
    {
        match place {
            Place::Head => Ok(self.head(fields)),
            Place::Top => self.top(alloc, word, fields),
            Place::Class => self.class(alloc, word, fields),
            Place::MemberBody => self.member(alloc, word, fields),
            Place::Body => self.body(alloc, word, fields),
            Place::Commands => self.command(alloc, word, fields),
        }
    }
}
