//! The places of a side.
use np_life::Phase;
use np_machine::{BodyId, Caller, Continuation, Entry, Place};
use np_side_places::Places;
use np_values::{Text, Value, Values};
use std::test::Fail;

const ENTRY: Entry = Entry {
    instance: 1,
    depth: 1,
    caller: Caller::Command,
    body: BodyId::Handler(0),
};

#[test]
fn a_frame_takes_its_arguments_and_gives_its_places_back(rt: HostRuntime) -> Result<(), Fail> {
    let alloc = rt.alloc();
    let mut places = Places::new(alloc, Values::new(alloc));
    places.push(Value::Null)?;
    places.push(Value::Int(7))?;
    places.enter(alloc, 1, ENTRY)?;
    let argument = places.read(alloc, &Place::Register(0))?;
    let this = places.read(alloc, &Place::This)?;
    assert!(rt; argument == Value::Int(7) && this == Value::Null);
    let old = places.put(&Place::Register(15), Value::Bool(true));
    places.leave(alloc, 0)?;
    let first = places.pop();
    assert!(rt; old == Value::Void && first == Some(Value::Int(7)));
    Ok(())
}

#[test]
fn a_frame_keeps_how_far_it_is(rt: HostRuntime) -> Result<(), Fail> {
    let alloc = rt.alloc();
    let text = Text::new(alloc, b"no")?;
    let mut places = Places::new(alloc, Values::new(alloc));
    places.enter(alloc, 0, ENTRY)?;
    places.advance(2)?;
    places.set_flag(true);
    places.note_exception(text);
    places.await_result(Continuation::Discard);
    places.resume();
    let progress = &places.frames()[0].progress;
    assert!(rt;
        progress.flag
            && progress.done == 2
            && progress.awaits.is_none()
            && progress.exception.is_some()
    );
    Ok(())
}

#[test]
fn an_instance_has_a_phase_a_serial_and_slots(rt: HostRuntime) -> Result<(), Fail> {
    let alloc = rt.alloc();
    let mut slots = Values::new(alloc);
    slots.push(Value::Void)?;
    let mut places = Places::new(alloc, Values::new(alloc));
    places.begin(1, slots)?;
    places.set_serial(1, 4);
    places.mark_destroying(1);
    let phase = places.phase(1);
    let old = places.put(&Place::Slot(1, 0), Value::Int(3));
    let slot = places.read(alloc, &Place::Slot(1, 0))?;
    places.kill(1);
    assert!(rt;
        phase == Phase::Destroying && places.phase(1) == Phase::Dead && places.serial(1) == Some(4)
    );
    assert!(rt; old == Value::Void && slot == Value::Int(3) && places.instances().len() == 1);
    Ok(())
}

#[test]
fn a_value_in_flight_goes_after_others(rt: HostRuntime) -> Result<(), Fail> {
    let alloc = rt.alloc();
    let mut registers = Values::new(alloc);
    registers.push(Value::Void)?;
    let mut values = Values::new(alloc);
    values.push(Value::Int(1))?;
    values.push(Value::Int(2))?;
    let mut places = Places::new(alloc, registers);
    places.push_all(values)?;
    places.move_after(alloc, 1)?;
    let first = places.pop();
    let second = places.pop();
    assert!(rt;
        first == Some(Value::Int(2))
            && second == Some(Value::Int(1))
            && places.registers().len() == 1
    );
    Ok(())
}
