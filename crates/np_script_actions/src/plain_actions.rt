//! The actions of both sides that no command has, field by field.

ghost use Rattle.std.specs.Prelude.{◌≡◌};
ghost use Rattle.np_script_grammar.specs.Takes.{Gives};
ghost use Rattle.np_script_actions.specs.SaidBy.{said_by};
ghost use Rattle.np_script_actions.specs.Actions.{add_of, fail_of, load_of, new_of, on_equal_of, on_false_of, on_true_of, return_of, self_of, slot_of, throw_of, plain_rows};

use crate::own_actions::own_action;
use np_script_grammar::{Action, Fields};
use np_values::NoMemory;
use std::alloc::Global;

/// `add R V V`
fn add(mut fields: Fields) -> Option<Action>
    ensures value { result ≡ add_of fields }
{
    let register = fields.register()?;
    let value = fields.operand()?;
    let other = fields.operand()?;
    fields.end()?;
    Some(Action::Add(register, value, other))
}

/// `fail`
fn fail(fields: Fields) -> Option<Action>
    ensures value { result ≡ fail_of fields }
{
    fields.end()?;
    Some(Action::Fail)
}

/// `return V`
fn return_value(mut fields: Fields) -> Option<Action>
    ensures value { result ≡ return_of fields }
{
    let value = fields.operand()?;
    fields.end()?;
    Some(Action::Return(value))
}

/// `throw TEXT`
fn throw(mut fields: Fields) -> Option<Action>
    ensures value { result ≡ throw_of fields }
{
    let text = fields.text()?;
    fields.end()?;
    Some(Action::Throw(text))
}

/// `new R TEXT`
fn new(mut fields: Fields) -> Option<Action>
    ensures value { result ≡ new_of fields }
{
    let register = fields.register()?;
    let text = fields.text()?;
    fields.end()?;
    Some(Action::New(register, text))
}

/// `slot N V`
fn slot(mut fields: Fields) -> Option<Action>
    ensures value { result ≡ slot_of fields }
{
    let number = fields.byte()?;
    let value = fields.operand()?;
    fields.end()?;
    Some(Action::Slot(number, value))
}

/// `load R N`
fn load(mut fields: Fields) -> Option<Action>
    ensures value { result ≡ load_of fields }
{
    let register = fields.register()?;
    let number = fields.byte()?;
    fields.end()?;
    Some(Action::Load(register, number))
}

/// `self R`
fn self_to(mut fields: Fields) -> Option<Action>
    ensures value { result ≡ self_of fields }
{
    let register = fields.register()?;
    fields.end()?;
    Some(Action::SelfTo(register))
}

/// `ontrue N`
fn on_true(mut fields: Fields) -> Option<Action>
    ensures value { result ≡ on_true_of fields }
{
    let number = fields.byte()?;
    fields.end()?;
    Some(Action::OnTrue(number))
}

/// `onfalse N`
fn on_false(mut fields: Fields) -> Option<Action>
    ensures value { result ≡ on_false_of fields }
{
    let number = fields.byte()?;
    fields.end()?;
    Some(Action::OnFalse(number))
}

/// `oneq V V N`
fn on_equal(mut fields: Fields) -> Option<Action>
    ensures value { result ≡ on_equal_of fields }
{
    let value = fields.operand()?;
    let other = fields.operand()?;
    let number = fields.byte()?;
    fields.end()?;
    Some(Action::OnEq(value, other, number))
}

/// The action that the line says, if it is none that a command may be too.
#[tactic(auto, unfolding(crate::specs::Actions::plain_rows))]
pub fn plain_action(alloc: Global, word: &[u8], fields: Fields) -> Result<Option<Action>, NoMemory>
    ensures value { Gives result (said_by plain_rows word.now fields) }
{
    if word == b"add".as_slice() {
        return Ok(add(fields));
    }
    if word == b"fail".as_slice() {
        return Ok(fail(fields));
    }
    if word == b"return".as_slice() {
        return Ok(return_value(fields));
    }
    if word == b"throw".as_slice() {
        return Ok(throw(fields));
    }
    if word == b"new".as_slice() {
        return Ok(new(fields));
    }
    if word == b"slot".as_slice() {
        return Ok(slot(fields));
    }
    if word == b"load".as_slice() {
        return Ok(load(fields));
    }
    if word == b"self".as_slice() {
        return Ok(self_to(fields));
    }
    if word == b"ontrue".as_slice() {
        return Ok(on_true(fields));
    }
    if word == b"onfalse".as_slice() {
        return Ok(on_false(fields));
    }
    if word == b"oneq".as_slice() {
        return Ok(on_equal(fields));
    }
    own_action(alloc, word, fields)
}
