//! Actions that make no call and end no body.
ghost use Rattle.std.specs.Prelude.{◌≡◌, ◌<◌, ◌≤◌, ◌^◌, ◌++◌, length, IfSome, OnOk};
ghost use Rattle.np_machine_plans.specs.Actions.{plain_steps, skip_steps};
ghost use Rattle.np_machine_plans.specs.Classes.{class_place as place_of};

use crate::operands::{Registers, assign, assign_void, operand_step};
use np_machine::{Place, Step};
use np_script_grammar::{Action, ClassDef};
use np_values::{NoMemory, TryCopy};
use std::alloc::Global;

/// The place of the class of this name, where it is declared.
pub fn class_place(classes: &[ClassDef], name: &[u8]) -> Option<u32>
    requires few { length classes.now ≤ 2 ^ 32 }
    ensures value { result ≡ place_of name.now classes.now }
{
    match class_position(classes, name) {
        Some(place) => Some(place as u32),
        None => None,
    }
}

fn class_position(classes: &[ClassDef], name: &[u8]) -> Option<usize>
    ensures value { result ≡ place_of name.now classes.now }
    ensures within { IfSome result (λ place. place < length classes.now) }
{
    classes
        .iter()
        .position(|class| class.name.as_str().as_bytes() == name)
}

/// Appends what such an action does, of a frame of this instance with this flag, on a side that has room for a further object or not.
pub fn plain_action(
    alloc: Global,
    classes: &[ClassDef],
    instance: u8,
    room: bool,
    flag: bool,
    action: &Action,
    steps: &mut Vec<Step>,
) -> Result<(), NoMemory>
    requires few { length classes.now ≤ 2 ^ 32 }
    ensures ok { OnOk result (steps.new.items ≡ steps.old.items ++ plain_steps classes.now instance room flag action.now) }
{
    match action {
        Action::Set(register, value) => {
            steps.push(operand_step(alloc, Registers::OfFrame, value)?)?;
            assign(steps, Place::Register(*register))
        }
        Action::New(register, name) => match class_place(classes, name.as_str().as_bytes()) {
            Some(class) if room => {
                steps.push(Step::SetFlag(true))?;
                steps.push(Step::Create(instance, class))?;
                assign(steps, Place::Register(*register))
            }
            _ => {
                steps.push(Step::SetFlag(false))?;
                assign_void(steps, Place::Register(*register))
            }
        },
        Action::Drop(register) => assign_void(steps, Place::Register(*register)),
        Action::Slot(slot, value) => {
            steps.push(operand_step(alloc, Registers::OfFrame, value)?)?;
            assign(steps, Place::Slot(instance, *slot))
        }
        Action::Load(register, slot) => {
            steps.push(Step::Copy(Place::Slot(instance, *slot)))?;
            assign(steps, Place::Register(*register))
        }
        Action::SelfTo(register) => {
            steps.push(Step::Copy(Place::This))?;
            assign(steps, Place::Register(*register))
        }
        Action::Throw(text) => {
            steps.push(Step::NoteException(text.try_copy(alloc)?))?;
            Ok(())
        }
        Action::OnTrue(count) => skip(steps, usize::from(*count), !flag),
        Action::OnFalse(count) => skip(steps, usize::from(*count), flag),
        _ => Ok(()),
    }
}

/// Appends a skip of so many actions, or nothing.
pub fn skip(steps: &mut Vec<Step>, count: usize, skips: bool) -> Result<(), NoMemory>
    ensures ok { OnOk result (steps.new.items ≡ steps.old.items ++ skip_steps count skips) }
{
    if skips {
        steps.push(Step::Advance(count))?;
    }
    Ok(())
}
