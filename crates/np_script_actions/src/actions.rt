//! The action of a line, field by field.

ghost use Rattle.std.specs.Prelude.{◌≡◌};
ghost use Rattle.np_script_grammar.specs.Takes.{Gives};
ghost use Rattle.np_script_actions.specs.Actions.{call_default_of, construct_of, drop_of, enumerate_of, get_of, has_method_of, has_property_of, invoke_of, note_of, put_of, remove_of, set_of, action_of};

use crate::plain_actions::plain_action;
use np_script_grammar::{Action, Fields};
use np_values::NoMemory;
use std::alloc::Global;

/// `set R V`
fn set(mut fields: Fields) -> Option<Action>
    ensures value { result ≡ set_of fields }
{
    let register = fields.register()?;
    let value = fields.operand()?;
    fields.end()?;
    Some(Action::Set(register, value))
}

/// `drop R`
fn drop(mut fields: Fields) -> Option<Action>
    ensures value { result ≡ drop_of fields }
{
    let register = fields.register()?;
    fields.end()?;
    Some(Action::Drop(register))
}

/// `invoke R V ID V*`
fn invoke(alloc: Global, mut fields: Fields) -> Result<Option<Action>, NoMemory>
    ensures value { Gives result (invoke_of fields) }
{
    let Some(register) = fields.register() else {
        return Ok(None);
    };
    let Some(value) = fields.operand() else {
        return Ok(None);
    };
    let Some(key) = fields.key() else {
        return Ok(None);
    };
    let Some(arguments) = fields.operands(alloc)? else {
        return Ok(None);
    };
    Ok(Some(Action::Invoke(register, value, key, arguments)))
}

/// `calldef R V V*`
fn call_default(alloc: Global, mut fields: Fields) -> Result<Option<Action>, NoMemory>
    ensures value { Gives result (call_default_of fields) }
{
    let Some(register) = fields.register() else {
        return Ok(None);
    };
    let Some(value) = fields.operand() else {
        return Ok(None);
    };
    let Some(arguments) = fields.operands(alloc)? else {
        return Ok(None);
    };
    Ok(Some(Action::CallDefault(register, value, arguments)))
}

/// `construct R V V*`
fn construct(alloc: Global, mut fields: Fields) -> Result<Option<Action>, NoMemory>
    ensures value { Gives result (construct_of fields) }
{
    let Some(register) = fields.register() else {
        return Ok(None);
    };
    let Some(value) = fields.operand() else {
        return Ok(None);
    };
    let Some(arguments) = fields.operands(alloc)? else {
        return Ok(None);
    };
    Ok(Some(Action::Construct(register, value, arguments)))
}

/// `get R V ID`
fn get(mut fields: Fields) -> Option<Action>
    ensures value { result ≡ get_of fields }
{
    let register = fields.register()?;
    let value = fields.operand()?;
    let key = fields.key()?;
    fields.end()?;
    Some(Action::Get(register, value, key))
}

/// `put V ID V`
fn put(mut fields: Fields) -> Option<Action>
    ensures value { result ≡ put_of fields }
{
    let value = fields.operand()?;
    let key = fields.key()?;
    let other = fields.operand()?;
    fields.end()?;
    Some(Action::Put(value, key, other))
}

/// `remove V ID`
fn remove(mut fields: Fields) -> Option<Action>
    ensures value { result ≡ remove_of fields }
{
    let value = fields.operand()?;
    let key = fields.key()?;
    fields.end()?;
    Some(Action::Remove(value, key))
}

/// `hasm V ID`
fn has_method(mut fields: Fields) -> Option<Action>
    ensures value { result ≡ has_method_of fields }
{
    let value = fields.operand()?;
    let key = fields.key()?;
    fields.end()?;
    Some(Action::HasMethod(value, key))
}

/// `hasp V ID`
fn has_property(mut fields: Fields) -> Option<Action>
    ensures value { result ≡ has_property_of fields }
{
    let value = fields.operand()?;
    let key = fields.key()?;
    fields.end()?;
    Some(Action::HasProperty(value, key))
}

/// `enum R V`
fn enumerate(mut fields: Fields) -> Option<Action>
    ensures value { result ≡ enumerate_of fields }
{
    let register = fields.register()?;
    let value = fields.operand()?;
    fields.end()?;
    Some(Action::Enumerate(register, value))
}

/// `note V`
fn note(mut fields: Fields) -> Option<Action>
    ensures value { result ≡ note_of fields }
{
    let value = fields.operand()?;
    fields.end()?;
    Some(Action::Note(value))
}

/// The action that a line of this word and these fields says; `None` where it says none. Which side may
/// have it, and the bounds of its fields, are tested before. It owns what the fields owned.
#[tactic(auto, unfolding(crate::specs::Actions::action_of))]
pub fn action(alloc: Global, word: &[u8], fields: Fields) -> Result<Option<Action>, NoMemory>
    ensures value { Gives result (action_of word.now fields) }
{
    if word == b"set".as_slice() {
        return Ok(set(fields));
    }
    if word == b"drop".as_slice() {
        return Ok(drop(fields));
    }
    if word == b"invoke".as_slice() {
        return invoke(alloc, fields);
    }
    if word == b"calldef".as_slice() {
        return call_default(alloc, fields);
    }
    if word == b"construct".as_slice() {
        return construct(alloc, fields);
    }
    if word == b"get".as_slice() {
        return Ok(get(fields));
    }
    if word == b"put".as_slice() {
        return Ok(put(fields));
    }
    if word == b"remove".as_slice() {
        return Ok(remove(fields));
    }
    if word == b"hasm".as_slice() {
        return Ok(has_method(fields));
    }
    if word == b"hasp".as_slice() {
        return Ok(has_property(fields));
    }
    if word == b"enum".as_slice() {
        return Ok(enumerate(fields));
    }
    if word == b"note".as_slice() {
        return Ok(note(fields));
    }
    plain_action(alloc, word, fields)
}
