//! The members of a class, and the lines of their bodies.

ghost use Rattle.std.specs.Prelude.{◌≡◌, OnOk, codes};
ghost use Rattle.np_script_builder.specs.Building.{only_key, opened_member, with_action, built_in_member, Gives};

use crate::state::{Building, Unfinished};
use np_idents::IdKey;
use np_script_actions::action;
use np_script_grammar::{Action, Body, Fields, Member};
use np_values::NoMemory;
use std::alloc::Global;
use std::mem;

/// The identifier that is alone on a member's line.
fn key(mut fields: Fields) -> Option<IdKey>
    ensures value { result ≡ only_key fields }
{
    let key = fields.key()?;
    fields.end()?;
    Some(key)
}

/// The line that opens a member.
pub(crate) fn opens(alloc: Global, word: &[u8], fields: Fields) -> Option<Member>
    ensures value { result ≡ opened_member word.now fields }
{
    if word == b"method".as_slice() {
        let key = key(fields)?;
        Some(Member::Method(key, Body::new(alloc)))
    } else if word == b"default".as_slice() {
        fields.end()?;
        Some(Member::Default(Body::new(alloc)))
    } else if word == b"construct".as_slice() {
        fields.end()?;
        Some(Member::Construct(Body::new(alloc)))
    } else if word == b"getter".as_slice() {
        let key = key(fields)?;
        Some(Member::Getter(key, Body::new(alloc)))
    } else if word == b"setter".as_slice() {
        let key = key(fields)?;
        Some(Member::Setter(key, Body::new(alloc)))
    } else {
        None
    }
}

/// Puts an action after those of a member.
fn extend(member: &mut Member, action: Action) -> Result<(), NoMemory>
    ensures value { OnOk result (member.new ≡ with_action member.old action) }
{
    match member {
        Member::Method(_, body) => body.push(action),
        Member::Default(body) => body.push(action),
        Member::Construct(body) => body.push(action),
        Member::Getter(_, body) => body.push(action),
        Member::Setter(_, body) => body.push(action),
    }
}

impl Building {
    /// The end of a member's body.
    fn end_member(&mut self, fields: Fields) -> Result<Option<()>, NoMemory>
        ensures value { Gives result self.new (built_in_member self.old self.old.unfinished (codes "end") fields) }
    {
        let Unfinished::OfMember(mut class, member) = mem::replace(
            &mut self.unfinished,
            Unfinished::Nothing,
        ) else {
            return Ok(None);
        };
        let Some(()) = fields.end() else {
            return Ok(None);
        };
        class.members.push(member)?;
        self.unfinished = Unfinished::OfClass(class);
        Ok(Some(()))
    }

    /// A line in the body of a member.
    pub(crate) fn member(
        &mut self,
        alloc: Global,
        word: &[u8],
        fields: Fields,
    ) -> Result<Option<()>, NoMemory>
        ensures value { Gives result self.new (built_in_member self.old self.old.unfinished word.now fields) }
    {
        if word == b"end".as_slice() {
            return self.end_member(fields);
        }
        let Unfinished::OfMember(_, member) = &mut self.unfinished else {
            return Ok(None);
        };
        let Some(action) = action(alloc, word, fields)? else {
            return Ok(None);
        };
        extend(member, action)?;
        Ok(Some(()))
    }
}
