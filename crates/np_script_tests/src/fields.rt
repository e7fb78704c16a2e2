//! The fields of a line, which are taken off the front.
use np_script_grammar::{Field, Fields, Operand};
use np_values::{Text, Value};
use std::alloc::Global;
use std::test::Fail;

fn three_fields(alloc: Global) -> Result<Fields, Fail> {
    let text = Text::new(alloc, b"t")?;
    let mut fields = Fields::new(alloc);
    fields.push(Field::Register(3))?;
    fields.push(Field::Number(255))?;
    fields.push(Field::Text(text))?;
    Ok(fields)
}

#[test]
fn fields_are_taken_off_the_front(rt: HostRuntime) -> Result<(), Fail> {
    let mut fields = three_fields(rt.alloc())?;
    assert!(rt; matches!(fields.get(1), Some(Field::Number(255))));
    assert_eq!(rt; fields.register(), Some(3));
    assert_eq!(rt; fields.byte(), Some(255));
    assert!(rt; fields.text().is_some());
    assert!(rt; fields.end().is_some());
    Ok(())
}

#[test]
fn the_rest_is_operands(rt: HostRuntime) -> Result<(), Fail> {
    let alloc = rt.alloc();
    let mut fields = Fields::new(alloc);
    fields.push(Field::Operand(Operand::Reg(1)))?;
    fields.push(Field::Operand(Operand::Const(Value::Null)))?;
    let operands = fields.operands(alloc)?;
    assert!(rt;
        matches!(
            operands.ok_or("none")?.as_slice(),
            [Operand::Reg(1), Operand::Const(Value::Null)]
        )
    );
    Ok(())
}

#[test]
fn the_rest_is_texts(rt: HostRuntime) -> Result<(), Fail> {
    let alloc = rt.alloc();
    let text = Text::new(alloc, b"t")?;
    let mut fields = Fields::new(alloc);
    fields.push(Field::Text(text))?;
    let texts = fields.texts(alloc)?;
    assert_eq!(rt; texts.ok_or("none")?.len(), 1);
    Ok(())
}

#[test]
fn the_rest_is_ranges(rt: HostRuntime) -> Result<(), Fail> {
    let alloc = rt.alloc();
    let mut fields = Fields::new(alloc);
    fields.push(Field::Integer(-2))?;
    fields.push(Field::Number(5))?;
    let ranges = fields.ranges(alloc)?;
    assert_eq!(rt; ranges.ok_or("none")?.len(), 1);
    Ok(())
}
