//! The lines between the members of a class.

ghost use Rattle.np_script_builder.specs.Building.{built_in_class, Gives};

use crate::members::opens;
use crate::state::{Building, Unfinished};
use np_script_grammar::Fields;
use np_values::NoMemory;
use std::alloc::Global;
use std::mem;

impl Building {
    /// A line between the members of a class.
    pub(crate) fn class(
        &mut self,
        alloc: Global,
        word: &[u8],
        fields: Fields,
    ) -> Result<Option<()>, NoMemory>
        ensures value { Gives result self.new (built_in_class self.old self.old.unfinished word.now fields) }
    {
        let Unfinished::OfClass(mut class) = mem::replace(&mut self.unfinished, Unfinished::Nothing)
        else {
            return Ok(None);
        };
        if word == b"data".as_slice() {
            let Some(()) = fields.end() else {
                return Ok(None);
            };
            class.stored = true;
            self.unfinished = Unfinished::OfClass(class);
            return Ok(Some(()));
        }
        if word == b"endclass".as_slice() {
            let Some(()) = fields.end() else {
                return Ok(None);
            };
            self.classes.push(class)?;
            return Ok(Some(()));
        }
        let Some(member) = opens(alloc, word, fields) else {
            return Ok(None);
        };
        self.unfinished = Unfinished::OfMember(class, member);
        Ok(Some(()))
    }
}
