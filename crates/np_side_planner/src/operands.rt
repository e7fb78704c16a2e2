//! The parts that plans are made of.
ghost use Rattle.std.specs.Prelude.{◌≡◌, ◌++◌, ◌∷◌, IfOk, OnOk};
ghost use Rattle.np_machine.specs.declared.step.Step.TheVariants.{Constant};
ghost use Rattle.np_values.specs.declared.value.Value.TheVariants.{Void};
ghost use Rattle.np_machine_plans.specs.PlanParts.{assign as assign_steps, code_steps, operand_step as step_of, operand_steps as steps_of};
ghost use Rattle.np_side_planner.specs.Registers.{register_of};

use np_machine::{Place, Step};
use np_script_grammar::Operand;
use np_values::{NoMemory, NpError, TryCopy, Value};
use std::alloc::Global;

/// Whose registers a plan reads and writes.
#[derive(Clone, Copy, Debug, PartialEq, Eq)]
pub enum Registers {
    /// Those of the newest frame.
    OfFrame,
    /// Those of the page's commands.
    OfPage,
}

impl Registers {
    /// The place of a register.
    pub fn place(self, register: u8) -> Place
        ensures value { result ≡ register_of self register }
    {
        match self {
            Registers::OfFrame => Place::Register(register),
            Registers::OfPage => Place::PageRegister(register),
        }
    }
}

/// The step that brings an operand's value in flight.
pub fn operand_step(
    alloc: Global,
    registers: Registers,
    operand: &Operand,
) -> Result<Step, NoMemory>
    ensures value { IfOk result (λ step. step ≡ step_of (register_of registers) operand.now) }
{
    match operand {
        Operand::Reg(register) => Ok(Step::Copy(registers.place(*register))),
        Operand::Const(value) => Ok(Step::Constant(value.try_copy(alloc)?)),
    }
}

/// Appends the steps that bring the operands' values in flight, the first of them next.
pub fn operand_steps(
    alloc: Global,
    registers: Registers,
    operands: &[Operand],
    steps: &mut Vec<Step>,
) -> Result<(), NoMemory>
    ensures ok { OnOk result (steps.new.items ≡ steps.old.items ++ steps_of (register_of registers) operands.now) }
{
    let mut left = operands.len();
    while left > 0 {
        left -= 1;
        steps.push(operand_step(alloc, registers, &operands[left])?)?;
    }
    Ok(())
}

/// Appends an assignment: the next value in flight goes to the place, and what was there is dropped.
pub fn assign(steps: &mut Vec<Step>, place: Place) -> Result<(), NoMemory>
    ensures ok { OnOk result (steps.new.items ≡ steps.old.items ++ assign_steps place) }
{
    steps.push(Step::Put(place))?;
    steps.push(Step::DropEach(1))?;
    Ok(())
}

/// Appends that Void is assigned to a place.
pub fn assign_void(steps: &mut Vec<Step>, place: Place) -> Result<(), NoMemory>
    ensures ok { OnOk result (steps.new.items ≡ steps.old.items ++ (Constant Void ∷ assign_steps place)) }
{
    steps.push(Step::Constant(Value::Void))?;
    assign(steps, place)
}

/// Appends that a register of the newest frame gets the number of an error, and the flag whether it is 0. (npapi.h, NPError.)
pub fn assign_code(steps: &mut Vec<Step>, register: u8, error: NpError) -> Result<(), NoMemory>
    ensures ok { OnOk result (steps.new.items ≡ steps.old.items ++ code_steps register error) }
{
    steps.push(Step::SetFlag(error == NpError::NoError))?;
    steps.push(Step::Constant(Value::Int(i32::from(error.code()))))?;
    assign(steps, Place::Register(register))
}
