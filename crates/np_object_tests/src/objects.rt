//! One side's objects.
use np_idents::IdKey;
use np_name_search::{NumberedName, count_before};
use np_objects::{FieldSet, Store};
use np_values::{Name, Side, Value};
use std::process::Abort;
use std::test::Fail;

const FIRST: Name = Name {
    side: Side::Page,
    instance: 1,
    serial: 1,
};

const SECOND: Name = Name {
    side: Side::Page,
    instance: 1,
    serial: 2,
};

#[test]
fn one_name_stands_before_another(rt: HostRuntime) {
    let names = [NumberedName::new(FIRST)];
    assert_eq!(rt; count_before(&names, SECOND), 1);
}

#[test]
fn an_instance_s_first_object_has_serial_1(rt: HostRuntime) -> Result<(), Fail> {
    let mut store = Store::new(rt.alloc(), Side::Page);
    let name = store.create(1, 7)?;
    assert_eq!(rt; name, Some(FIRST));
    assert_eq!(rt; store.class_of(FIRST), Some(7));
    assert_eq!(rt; store.last_serial(1), 1);
    Ok(())
}

#[test]
fn what_is_held_or_pinned_is_not_free(rt: HostRuntime) -> Result<(), Fail> {
    let mut store = Store::new(rt.alloc(), Side::Page);
    let name = store.create(1, 7)?.ok_or("none")?;
    store.pin(name);
    store.hold(name);
    assert_eq!(rt; store.holds_of(name), 1);
    assert!(rt; !store.unhold(name));
    assert!(rt; store.class_of(name).is_some());
    assert!(rt; store.unpin(name));
    Ok(())
}

/// The first object of an instance, with one field.
fn with_field(rt: &impl Abort, store: &mut Store) -> Result<Name, Fail> {
    assert_eq!(rt; store.last_serial(1), 0);
    let name = store.create(1, 7)?.ok_or("none")?;
    store.set_field(name, &IdKey::Int(3), Value::Int(5))?;
    Ok(name)
}

#[test]
fn a_field_is_set_and_removed(rt: HostRuntime) -> Result<(), Fail> {
    let mut store = Store::new(rt.alloc(), Side::Page);
    let name = with_field(&rt, &mut store)?;
    assert!(rt; store.field(name, &IdKey::Int(3)) == Some(&Value::Int(5)));
    assert!(rt; store.remove_field(name, &IdKey::Int(3)) == Some(Value::Int(5)));
    Ok(())
}

#[test]
fn a_field_is_set_again(rt: HostRuntime) -> Result<(), Fail> {
    let mut store = Store::new(rt.alloc(), Side::Page);
    let name = with_field(&rt, &mut store)?;
    assert!(rt; store.class_of(name).is_some());
    let set = store.set_field(name, &IdKey::Int(3), Value::Null)?;
    assert!(rt; set == FieldSet::Done(Value::Int(5)));
    Ok(())
}

#[test]
fn an_object_of_a_killed_instance_is_taken_out(rt: HostRuntime) -> Result<(), Fail> {
    let mut store = Store::new(rt.alloc(), Side::Page);
    let name = with_field(&rt, &mut store)?;
    let killed = store.kill(1)?;
    assert_eq!(rt; killed.as_slice(), [name].as_slice());
    assert!(rt; store.class_of(name).is_some());
    assert!(rt; store.is_killed(name.instance));
    assert_eq!(rt; store.fields(name).len(), 1);
    let fields = store.take_dead(name).into_fields();
    assert!(rt; fields.at(0) == Some((&IdKey::Int(3), &Value::Int(5))));
    Ok(())
}

/// Makes as many objects as there may be.
fn fill(store: &mut Store) -> Result<(), Fail> {
    for _ in 0..1024u16 {
        if store.last_serial(3) < 2000 {
            store.create(3, 0)?;
        }
    }
    Ok(())
}

#[test]
fn at_1024_live_objects_none_is_made(rt: HostRuntime) -> Result<(), Fail> {
    let mut store = Store::new(rt.alloc(), Side::Plug);
    fill(&mut store)?;
    assert_eq!(rt; store.last_serial(3), 1024);
    let none = store.create(3, 0)?;
    assert_eq!(rt; none, None);
    Ok(())
}
