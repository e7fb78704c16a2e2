//! The parts of plans.
use np_idents::{IdKey, Op};
use np_machine::{Continuation, Place, Step};
use np_objects::Store;
use np_script_grammar::{Action, ClassDef, Members, Operand};
use np_side_planner::{
    CallResult, Registers, assign_code, continue_steps, int_sum, operand_value, plain_action,
    result_steps, same_value, stored_call,
};
use np_values::{Name, NpError, Side, Text, Value};
use std::alloc::Global;
use std::test::Fail;

fn plain_class(alloc: Global) -> Result<ClassDef, Fail> {
    let name = Text::new(alloc, b"Bag")?;
    Ok(ClassDef {
        name,
        version: 3,
        stored: true,
        members: Members::new(alloc),
    })
}

#[test]
fn an_action_makes_an_object_of_a_declared_class(rt: HostRuntime) -> Result<(), Fail> {
    let alloc = rt.alloc();
    let class = plain_class(alloc)?;
    let mut classes = Vec::new(alloc);
    classes.push(class)?;
    let name = Text::new(alloc, b"Bag")?;
    let mut steps = Vec::new(alloc);
    plain_action(
        alloc,
        classes.as_slice(),
        1,
        true,
        false,
        &Action::New(2, name),
        &mut steps,
    )?;
    assert!(rt; steps.len() == 4);
    assert!(rt; matches!(&steps[1], Step::Create(1, 0)));
    Ok(())
}

#[test]
fn a_register_gets_a_result_and_a_code(rt: HostRuntime) -> Result<(), Fail> {
    let alloc = rt.alloc();
    let mut steps = Vec::new(alloc);
    result_steps(&CallResult::Failed, &mut steps)?;
    continue_steps(Registers::OfPage, Continuation::Assign(3), &mut steps)?;
    assign_code(&mut steps, 4, NpError::Generic)?;
    assert!(rt; steps.len() == 7);
    assert!(rt; matches!(&steps[1], Step::Put(Place::PageRegister(3))));
    assert!(rt; matches!(&steps[3], Step::SetFlag(false)));
    Ok(())
}

#[test]
fn values_are_compared_and_added(rt: HostRuntime) {
    let registers = [Value::Int(1), Value::Int(2)];
    let void = Value::Void;
    let second = operand_value(registers.as_slice(), &Operand::Reg(1), &void);
    assert!(rt; same_value(second, &Value::Int(2)));
    assert!(rt; int_sum(second, &Value::Int(40)) == Some(42));
}

#[test]
fn a_property_that_is_kept_is_returned(rt: HostRuntime) -> Result<(), Fail> {
    let alloc = rt.alloc();
    let class = plain_class(alloc)?;
    let key = IdKey::Int(12);
    let mut store = Store::new(alloc, Side::Page);
    let made = store.create(1, 0)?;
    if let Some(name) = made {
        let old = store.set_field(name, &key, Value::Int(5))?;
        let mut steps = Vec::new(alloc);
        let answer = stored_call(
            alloc,
            Registers::OfFrame,
            &class,
            &store,
            name,
            &Op::Get(key),
            &[],
            true,
            &mut steps,
        )?;
        assert!(rt; matches!(answer, CallResult::Returned(Value::Int(5))));
        assert!(rt; steps.len() == 1);
    }
    assert!(rt;
        made == Some(Name {
            side: Side::Page,
            instance: 1,
            serial: 1
        })
    );
    Ok(())
}
