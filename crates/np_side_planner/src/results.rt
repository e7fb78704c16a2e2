//! What a call results in, and what its caller does with it.
ghost use Rattle.std.specs.Prelude.{◌≡◌, ◌++◌, OnOk, IfOk};
ghost use Rattle.np_machine_plans.specs.Results.{is_success as is_success_of, result_steps as steps_of, continue_steps as continue_steps_of, hand_over_result, reply_draft as draft_of};
ghost use Rattle.np_side_planner.specs.Registers.{register_of};
ghost use Rattle.np_side_planner.specs.CallResults.{told, HasFewKeys};

use crate::operands::{Registers, assign};
use np_idents::Keys;
use np_machine::{Continuation, Draft, Step};
use np_message::Payload;
use np_values::{NoMemory, NpError, Text, Value};

/// The result of a call. The value of `Returned` is the next one in flight; where nobody looks at it, it stands here as Void.
#[derive(Drop)]
pub enum CallResult {
    Returned(Value),
    Failed,
    /// An exception with this message. (npruntime.h, NPN_SetException.)
    Threw(Text),
    /// The identifiers of an object.
    Enumerated(Keys),
    /// The code of a request, or of an instance's destruction. (npapi.h, NPError.)
    ReturnedCode(NpError),
}

impl CallResult {
    /// Whether the result sets its caller's flag.
    pub fn is_success(&self) -> bool
        ensures value { result ≡ is_success_of (told self.now) }
    {
        match self {
            CallResult::Returned(_) | CallResult::Enumerated(_) => true,
            CallResult::Failed | CallResult::Threw(_) => false,
            CallResult::ReturnedCode(error) => *error == NpError::NoError,
        }
    }
}

/// Appends the steps after which one value is in flight for the result. That of `Returned` is there already.
pub fn result_steps(call_result: &CallResult, steps: &mut Vec<Step>) -> Result<(), NoMemory>
    requires few { HasFewKeys call_result.now }
    ensures ok { OnOk result (steps.new.items ≡ steps.old.items ++ steps_of (told call_result.now)) }
{
    let value = match call_result {
        CallResult::Returned(_) => return Ok(()),
        CallResult::Failed | CallResult::Threw(_) => Value::Void,
        CallResult::Enumerated(keys) => Value::Int(keys.len() as i32),
        CallResult::ReturnedCode(error) => Value::Int(i32::from(error.code())),
    };
    steps.push(Step::Constant(value))?;
    Ok(())
}

/// Appends what the caller does with that value: it goes to a register, or is dropped.
pub fn continue_steps(
    registers: Registers,
    continuation: Continuation,
    steps: &mut Vec<Step>,
) -> Result<(), NoMemory>
    ensures ok { OnOk result (steps.new.items ≡ steps.old.items ++ continue_steps_of (register_of registers) continuation) }
{
    match continuation {
        Continuation::Assign(register)
        | Continuation::AssignObject(register)
        | Continuation::AssignCount(register)
        | Continuation::AssignCode(register)
        | Continuation::AssignDestroyed(_, register) => assign(steps, registers.place(register)),
        Continuation::Discard => {
            steps.push(Step::DropEach(1))?;
            Ok(())
        }
    }
}

/// Appends that the value of a returned result is handed over to the reply.
pub fn hand_over(call_result: &CallResult, steps: &mut Vec<Step>) -> Result<(), NoMemory>
    ensures ok { OnOk result (steps.new.items ≡ steps.old.items ++ hand_over_result (told call_result.now)) }
{
    match call_result {
        CallResult::Returned(_) => {
            steps.push(Step::HandOver)?;
            Ok(())
        }
        _ => Ok(()),
    }
}

/// What a reply says of a result.
pub fn reply_draft(call_result: CallResult) -> Draft
    ensures value { result ≡ draft_of (told call_result) }
{
    match call_result {
        CallResult::Returned(_) => Draft::ValueDraft,
        CallResult::Failed => Draft::PlainDraft(Payload::False),
        CallResult::Threw(text) => Draft::PlainDraft(Payload::Threw(text)),
        CallResult::Enumerated(keys) => Draft::PlainDraft(Payload::Idents(keys)),
        CallResult::ReturnedCode(error) => Draft::PlainDraft(Payload::Code(error)),
    }
}
