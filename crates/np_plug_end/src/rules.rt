//! The answers of the plug-in, which depend on its script alone.

ghost use Rattle.std.specs.Prelude.{◌≡◌, ◌-◌};
ghost use Rattle.np_model.specs.PluginPlan.{code_of_int, new_answer, phase_after, reply_to};

use np_message::Payload;
use np_model::{Phase, Plugin};
use np_values::NpError;

// The code that a number of the handler `new` says.
fn error_of_int(value: i32) -> NpError
    ensures value { result ≡ code_of_int value }
{
    match u16::try_from(value) {
        Ok(code) => NpError::from_code(code).unwrap_or(NpError::Generic),
        Err(_) => NpError::Generic,
    }
}

/// What NPP_New answers.
pub fn answer(plugin: Plugin) -> NpError
    ensures value { result ≡ new_answer plugin.new_handler }
{
    match plugin.new_handler {
        Some(value) => error_of_int(value),
        None => NpError::NoError,
    }
}

/// The phase of an instance after NPP_New's answer.
pub fn phase(answer: NpError) -> Phase
    ensures value { result ≡ phase_after answer }
{
    match answer {
        NpError::NoError => Phase::Live,
        _ => Phase::Dead,
    }
}

/// The place of an instance among the phases; instances are counted from 1.
pub fn place(instance: u8) -> usize
    ensures value { result ≡ instance - 1 }
{
    usize::from(instance.saturating_sub(1))
}

/// The reply to a call.
pub fn reply(plugin: Plugin, call: &Payload) -> Payload
    ensures value { result ≡ reply_to plugin call.now }
{
    match call {
        Payload::Hello { major, .. } if plugin.major < *major => {
            Payload::Code(NpError::IncompatibleVersion)
        }
        Payload::Hello { .. } | Payload::Destroy { .. } => Payload::Code(NpError::NoError),
        Payload::New { .. } => Payload::Code(answer(plugin)),
        _ => Payload::Done,
    }
}
