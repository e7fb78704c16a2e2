//! The commands that are no actions too, field by field.

ghost use Rattle.std.specs.Prelude.{◌≡◌};
ghost use Rattle.np_script_grammar.specs.Takes.{Gives};
ghost use Rattle.np_script_actions.specs.SaidBy.{said_by};
ghost use Rattle.np_script_actions.specs.Commands.{create_of, destroy_of, new_of, open_stream_of, pump_of, scriptable_of, turn_of, page_rows};

use np_script_grammar::{Command, Fields};
use np_values::NoMemory;
use std::alloc::Global;

/// `create TEXT MODE (TEXT TEXT)*`
fn create(alloc: Global, mut fields: Fields) -> Result<Option<Command>, NoMemory>
    ensures value { Gives result (create_of fields) }
{
    let Some(text) = fields.text() else {
        return Ok(None);
    };
    let Some(mode) = fields.mode() else {
        return Ok(None);
    };
    let Some(attributes) = fields.texts(alloc)? else {
        return Ok(None);
    };
    Ok(Some(Command::Create {
        mime: text,
        mode,
        attributes,
    }))
}

/// `destroy N`
fn destroy(mut fields: Fields) -> Option<Command>
    ensures value { result ≡ destroy_of fields }
{
    let number = fields.byte()?;
    fields.end()?;
    Some(Command::Destroy(number))
}

/// `scriptable R N`
fn scriptable(mut fields: Fields) -> Option<Command>
    ensures value { result ≡ scriptable_of fields }
{
    let register = fields.register()?;
    let number = fields.byte()?;
    fields.end()?;
    Some(Command::Scriptable(register, number))
}

/// `new R N TEXT`
fn new(mut fields: Fields) -> Option<Command>
    ensures value { result ≡ new_of fields }
{
    let register = fields.register()?;
    let number = fields.byte()?;
    let text = fields.text()?;
    fields.end()?;
    Some(Command::New(register, number, text))
}

/// `turn`
fn turn(fields: Fields) -> Option<Command>
    ensures value { result ≡ turn_of fields }
{
    fields.end()?;
    Some(Command::Turn)
}

/// `open N TEXT`
fn open_stream(mut fields: Fields) -> Option<Command>
    ensures value { result ≡ open_stream_of fields }
{
    let number = fields.byte()?;
    let text = fields.text()?;
    fields.end()?;
    Some(Command::OpenStream(number, text))
}

/// `pump N`
fn pump(mut fields: Fields) -> Option<Command>
    ensures value { result ≡ pump_of fields }
{
    let number = fields.number()?;
    fields.end()?;
    Some(Command::Pump(number))
}

/// The command that the line says, if it is none that an action may be too.
#[tactic(auto, unfolding(crate::specs::Commands::page_rows))]
pub fn page_command(alloc: Global, word: &[u8], fields: Fields) -> Result<Option<Command>, NoMemory>
    ensures value { Gives result (said_by page_rows word.now fields) }
{
    if word == b"create".as_slice() {
        return create(alloc, fields);
    }
    if word == b"destroy".as_slice() {
        return Ok(destroy(fields));
    }
    if word == b"scriptable".as_slice() {
        return Ok(scriptable(fields));
    }
    if word == b"new".as_slice() {
        return Ok(new(fields));
    }
    if word == b"turn".as_slice() {
        return Ok(turn(fields));
    }
    if word == b"open".as_slice() {
        return Ok(open_stream(fields));
    }
    if word == b"pump".as_slice() {
        return Ok(pump(fields));
    }
    Ok(None)
}
