//! The actions of one side, field by field.

ghost use Rattle.std.specs.Prelude.{◌≡◌};
ghost use Rattle.np_script_grammar.specs.Takes.{Gives};
ghost use Rattle.np_script_actions.specs.SaidBy.{said_by};
ghost use Rattle.np_script_actions.specs.Actions.{destroy_of, end_stream_of, exit_of, get_url_of, later_of, request_read_of, window_of, own_rows};

use np_script_grammar::{Action, Fields};
use np_values::NoMemory;
use std::alloc::Global;

/// `window R`
fn window(mut fields: Fields) -> Option<Action>
    ensures value { result ≡ window_of fields }
{
    let register = fields.register()?;
    fields.end()?;
    Some(Action::Window(register))
}

/// `geturl R V INT`
fn get_url(mut fields: Fields) -> Option<Action>
    ensures value { result ≡ get_url_of fields }
{
    let register = fields.register()?;
    let value = fields.operand()?;
    let integer = fields.integer()?;
    fields.end()?;
    Some(Action::GetUrl(register, value, integer))
}

/// `reqread R V (INT N)*`
fn request_read(alloc: Global, mut fields: Fields) -> Result<Option<Action>, NoMemory>
    ensures value { Gives result (request_read_of fields) }
{
    let Some(register) = fields.register() else {
        return Ok(None);
    };
    let Some(value) = fields.operand() else {
        return Ok(None);
    };
    let Some(ranges) = fields.ranges(alloc)? else {
        return Ok(None);
    };
    Ok(Some(Action::RequestRead(register, value, ranges)))
}

/// `endstream R V N`
fn end_stream(mut fields: Fields) -> Option<Action>
    ensures value { result ≡ end_stream_of fields }
{
    let register = fields.register()?;
    let value = fields.operand()?;
    let reason = fields.reason()?;
    fields.end()?;
    Some(Action::EndStream(register, value, reason))
}

/// `later TEXT`
fn later(mut fields: Fields) -> Option<Action>
    ensures value { result ≡ later_of fields }
{
    let text = fields.text()?;
    fields.end()?;
    Some(Action::Later(text))
}

/// `destroy R N`
fn destroy(mut fields: Fields) -> Option<Action>
    ensures value { result ≡ destroy_of fields }
{
    let register = fields.register()?;
    let number = fields.byte()?;
    fields.end()?;
    Some(Action::Destroy(register, number))
}

/// `exit N`
fn exit(mut fields: Fields) -> Option<Action>
    ensures value { result ≡ exit_of fields }
{
    let number = fields.byte()?;
    fields.end()?;
    Some(Action::Exit(number))
}

/// The action of one side that the line says; `None` where it says none.
#[tactic(auto, unfolding(crate::specs::Actions::own_rows))]
pub fn own_action(alloc: Global, word: &[u8], fields: Fields) -> Result<Option<Action>, NoMemory>
    ensures value { Gives result (said_by own_rows word.now fields) }
{
    if word == b"window".as_slice() {
        return Ok(window(fields));
    }
    if word == b"geturl".as_slice() {
        return Ok(get_url(fields));
    }
    if word == b"reqread".as_slice() {
        return request_read(alloc, fields);
    }
    if word == b"endstream".as_slice() {
        return Ok(end_stream(fields));
    }
    if word == b"later".as_slice() {
        return Ok(later(fields));
    }
    if word == b"destroy".as_slice() {
        return Ok(destroy(fields));
    }
    if word == b"exit".as_slice() {
        return Ok(exit(fields));
    }
    Ok(None)
}
