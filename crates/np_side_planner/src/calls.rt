//! Calls of objects that the runtime answers itself, from the properties that it keeps.
ghost use Rattle.std.specs.Prelude.{◌≡◌, ◌≤◌, ◌<◌, ◌++◌, ◌∷◌, [], ℕ, Bool, length, true, IfOk, OnOk};
ghost use Rattle.np_class.specs.Classes.{asks_for, place_of};
ghost use Rattle.np_values.specs.declared.value.Value.TheVariants.{Void};
ghost use Rattle.np_machine.specs.declared.step.Step.TheVariants.{Constant};
ghost use Rattle.np_side_planner.specs.declared.results.CallResult.TheVariants.{Returned};
ghost use Rattle.np_machine_plans.specs.Calls.{stored_call as stored_call_of, stored_put as stored_put_of, may_set as may_set_of};
ghost use Rattle.np_machine_plans.specs.Classes.{has_getter as has_getter_of};
ghost use Rattle.np_objects.specs.Objects.{is_live};
ghost use Rattle.np_idents.specs.declared.op.Op.TheVariants.{Enumerate, Get, Remove};
ghost use Rattle.np_side_planner.specs.Registers.{register_of};
ghost use Rattle.np_side_planner.specs.Objects.{object_with};
ghost use Rattle.np_side_planner.specs.CallResults.{HasFewKeys, Tells};

use crate::objects::{has_property, property_count, property_keys, property_value};
use crate::operands::{Registers, assign, operand_steps};
use crate::results::CallResult;
use np_idents::{IdKey, Keys, Op};
use np_machine::{Place, Step};
use np_objects::Store;
use np_script_grammar::{ClassDef, Member, Operand};
use np_values::{Name, NoMemory, TryCopy, Value};
use std::alloc::Global;

/// Appends that Void comes in flight, as the result.
fn return_void(steps: &mut Vec<Step>) -> Result<CallResult, NoMemory>
    ensures steps { OnOk result (steps.new.items ≡ steps.old.items ++ (Constant Void ∷ [])) }
    ensures value { IfOk result (λ r. r ≡ Returned Void) }
{
    steps.push(Step::Constant(Value::Void))?;
    Ok(CallResult::Returned(Value::Void))
}

/// Whether a property may be set: the object has it, or fewer than 64.
pub fn may_set(store: &Store, name: Name, key: &IdKey) -> bool
    requires live { is_live name store.now ≡ true }
    ensures value { result ≡ may_set_of key.now (object_with store.now name 0) }
{
    has_property(store, name, key) || property_count(store, name) < 64
}

/// Whether the member is a getter of this identifier.
fn is_getter(key: &IdKey, member: &Member) -> bool
    ensures value { result ≡ asks_for (Get key.now) member.now }
{
    match member {
        Member::Getter(own, _) => key == own,
        _ => false,
    }
}

/// The place of the getter of this identifier among the members of the class.
fn getter_place(class: &ClassDef, key: &IdKey) -> Option<usize>
    ensures value { result ≡ place_of (Get key.now) class.now }
{
    class
        .members
        .as_slice()
        .iter()
        .position(|member| is_getter(key, member))
}

/// Whether the class has a getter of this identifier.
fn has_getter(class: &ClassDef, key: &IdKey) -> bool
    ensures value { result ≡ has_getter_of key.now class.now }
{
    getter_place(class, key).is_some()
}

/// A `get` of a stored property. Its value is told where it is wanted.
fn stored_get(
    alloc: Global,
    store: &Store,
    name: Name,
    key: &IdKey,
    wanted: bool,
    steps: &mut Vec<Step>,
) -> Result<CallResult, NoMemory>
    ensures steps { (register : ℕ → Place) (class : ClassDef) (place : ℕ) → OnOk result (steps.new.items ≡ steps.old.items ++ (stored_call_of register class (object_with store.now name place) (Get key.now) []).steps) }
    ensures tells { (register : ℕ → Place) (class : ClassDef) (place : ℕ) → IfOk result (λ r. Tells wanted r (stored_call_of register class (object_with store.now name place) (Get key.now) []).result) }
    ensures few { IfOk result (λ r. HasFewKeys r) }
{
    if !has_property(store, name, key) {
        return Ok(CallResult::Failed);
    }
    let value = match wanted {
        true => property_value(alloc, store, name, key)?,
        false => Value::Void,
    };
    steps.push(Step::Copy(Place::PropertyOf(name, key.try_copy(alloc)?)))?;
    Ok(CallResult::Returned(value))
}

/// A `put` of a stored property, of a value that the operand names.
fn stored_put(
    alloc: Global,
    registers: Registers,
    store: &Store,
    name: Name,
    key: &IdKey,
    arguments: &[Operand],
    steps: &mut Vec<Step>,
) -> Result<CallResult, NoMemory>
    requires live { is_live name store.now ≡ true }
    ensures steps { (place : ℕ) → OnOk result (steps.new.items ≡ steps.old.items ++ (stored_put_of (register_of registers) (object_with store.now name place) key.now arguments.now).steps) }
    ensures tells { (wanted : Bool) (place : ℕ) → IfOk result (λ r. Tells wanted r (stored_put_of (register_of registers) (object_with store.now name place) key.now arguments.now).result) }
    ensures few { IfOk result (λ r. HasFewKeys r) }
{
    if may_set(store, name, key) {
        operand_steps(alloc, registers, arguments, steps)?;
        assign(steps, Place::PropertyOf(name, key.try_copy(alloc)?))?;
        return return_void(steps);
    }
    Ok(CallResult::Failed)
}

/// A `remove` of a stored property.
fn stored_remove(
    alloc: Global,
    store: &Store,
    name: Name,
    key: &IdKey,
    steps: &mut Vec<Step>,
) -> Result<CallResult, NoMemory>
    ensures steps { (register : ℕ → Place) (class : ClassDef) (place : ℕ) → OnOk result (steps.new.items ≡ steps.old.items ++ (stored_call_of register class (object_with store.now name place) (Remove key.now) []).steps) }
    ensures tells { (wanted : Bool) (register : ℕ → Place) (class : ClassDef) (place : ℕ) → IfOk result (λ r. Tells wanted r (stored_call_of register class (object_with store.now name place) (Remove key.now) []).result) }
    ensures few { IfOk result (λ r. HasFewKeys r) }
{
    if !has_property(store, name, key) {
        return Ok(CallResult::Failed);
    }
    steps.push(Step::Remove(name, key.try_copy(alloc)?))?;
    steps.push(Step::DropEach(1))?;
    return_void(steps)
}

/// `enumerate`: the identifiers, for a class of version 2 or 3 that keeps properties, and none else.
fn stored_keys(
    alloc: Global,
    class: &ClassDef,
    store: &Store,
    name: Name,
) -> Result<CallResult, NoMemory>
    requires live { is_live name store.now ≡ true }
    ensures tells { (wanted : Bool) (register : ℕ → Place) (place : ℕ) → IfOk result (λ r. Tells wanted r (stored_call_of register class.now (object_with store.now name place) Enumerate []).result) }
    ensures few { IfOk result (λ r. HasFewKeys r) }
{
    if class.stored && class.version > 1 {
        let keys = property_keys(alloc, store, name)?;
        return Ok(CallResult::Enumerated(keys));
    }
    Ok(CallResult::Enumerated(Keys::new(alloc)))
}

/// Appends the steps of an entry that no body runs, of a live object, and gives its result. The value of a `get` is told where it is
/// wanted; else it stands as Void in the result, while the steps bring it in flight all the same. (npruntime.h, NPClass.)
pub fn stored_call(
    alloc: Global,
    registers: Registers,
    class: &ClassDef,
    store: &Store,
    name: Name,
    op: &Op,
    arguments: &[Operand],
    wanted: bool,
    steps: &mut Vec<Step>,
) -> Result<CallResult, NoMemory>
    requires live { is_live name store.now ≡ true }
    ensures steps { (place : ℕ) → OnOk result (steps.new.items ≡ steps.old.items ++ (stored_call_of (register_of registers) class.now (object_with store.now name place) op.now arguments.now).steps) }
    ensures tells { (place : ℕ) → IfOk result (λ r. Tells wanted r (stored_call_of (register_of registers) class.now (object_with store.now name place) op.now arguments.now).result) }
    ensures few { IfOk result (λ r. HasFewKeys r) }
{
    match op {
        Op::Get(key) => stored_get(alloc, store, name, key, wanted, steps),
        Op::Put(key) => stored_put(alloc, registers, store, name, key, arguments, steps),
        Op::Remove(key) => stored_remove(alloc, store, name, key, steps),
        Op::HasMethod(_) => return_void(steps),
        Op::HasProperty(key) => {
            if has_getter(class, key) || has_property(store, name, key) {
                return return_void(steps);
            }
            Ok(CallResult::Failed)
        }
        Op::Enumerate => stored_keys(alloc, class, store, name),
        Op::Invoke(_) | Op::Default | Op::Construct => Ok(CallResult::Failed),
    }
}
