//! Levels of actions and bodies.
ghost use Rattle.std.specs.Prelude.{◌≡◌, map};
ghost use Rattle.np_model_scripts.specs.Levels.{greatest, action_level as level_of_action, body_level as level_of_body, new_level as level_of_new, which_level as level_of_which};

use crate::greater::greater;
use np_script_grammar::{Action, Operand};
use np_values::{Handler, Value};

/// The level of an action's line.
fn action_level(action: &Action) -> u8
    ensures value { result ≡ level_of_action action.now }
{
    match action {
        Action::Destroy(_, _) | Action::Exit(_) => 8,
        Action::GetUrl(_, _, _) | Action::RequestRead(_, _, _) | Action::EndStream(_, _, _) => 9,
        Action::Later(_) => 10,
        _ => 5,
    }
}

/// The greatest level of a body's lines, of which the one that opens it has this.
pub fn body_level(opening: u8, body: &[Action]) -> u8
    ensures value { result ≡ level_of_body opening body.now }
{
    let mut level = opening;
    for action in body {
        level = greater(level, action_level(action));
    }
    level
}

/// The level of the body of `new`: one that only returns a number is served from the start.
fn new_level(body: &[Action]) -> u8
    ensures value { result ≡ level_of_new body.now }
{
    match body {
        [Action::Return(Operand::Const(Value::Int(_)))] => 1,
        _ => body_level(5, body),
    }
}

/// The level of a handler with this body.
pub fn which_level(which: Handler, body: &[Action]) -> u8
    ensures value { result ≡ level_of_which which body.now }
{
    match which {
        Handler::New => new_level(body),
        Handler::Destroy | Handler::Scriptable => body_level(5, body),
        _ => body_level(9, body),
    }
}
