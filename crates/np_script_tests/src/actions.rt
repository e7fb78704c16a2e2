//! The actions and commands that the fields of a line say.
use np_script_actions::{action, command};
use np_script_grammar::{Action, Command, Field, Fields};
use std::test::Fail;

#[test]
fn drop_names_a_register(rt: HostRuntime) -> Result<(), Fail> {
    let alloc = rt.alloc();
    let mut fields = Fields::new(alloc);
    fields.push(Field::Register(3))?;
    let drop = action(alloc, b"drop", fields)?;
    assert!(rt; matches!(drop, Some(Action::Drop(3))));
    Ok(())
}

#[test]
fn pump_has_a_number(rt: HostRuntime) -> Result<(), Fail> {
    let alloc = rt.alloc();
    let mut fields = Fields::new(alloc);
    fields.push(Field::Number(9))?;
    let pump = command(alloc, b"pump", fields)?;
    assert!(rt; matches!(pump, Some(Command::Pump(9))));
    Ok(())
}
