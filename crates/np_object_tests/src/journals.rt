//! The bytes of a journal's lines.
use np_idents::{IdKey, IdText, Keys, Op};
use np_journal::{Journal, Line, Printed, Streamed};
use np_values::{Handler, Name, NpError, NpReason, Side, Text, Value};
use std::alloc::Global;
use std::test::Fail;

const OBJECT: Name = Name {
    side: Side::Plug,
    instance: 1,
    serial: 12,
};

#[test]
fn lines_of_objects(rt: HostRuntime) -> Result<(), Fail> {
    let alloc = rt.alloc();
    let text = IdText::new(alloc, "a b")?;
    let mut journal = Journal::new(alloc);
    journal.created(OBJECT)?;
    journal.entered(OBJECT, &Op::Put(IdKey::Str(text)))?;
    journal.proxy_gone(OBJECT)?;
    journal.invalid(OBJECT)?;
    journal.freed(OBJECT)?;
    let lines = "+ plug:1:12\n> plug:1:12 set \"a b\"\nx plug:1:12\n! plug:1:12\n- plug:1:12\n";
    assert_eq!(rt; journal.bytes(), lines.as_bytes());
    Ok(())
}

#[test]
fn lines_of_bodies(rt: HostRuntime) -> Result<(), Fail> {
    let alloc = rt.alloc();
    let name = Text::new(alloc, b"tick")?;
    let mut journal = Journal::new(alloc);
    journal.handler(1, Handler::New)?;
    journal.task(1, &name)?;
    journal.note(&Value::Object(OBJECT), true)?;
    journal.queue_full(1, &name)?;
    let lines =
        "> inst:1 new\n> inst:1 task \"tick\"\nn object plug:1:12 dead\nq inst:1 \"tick\"\n";
    assert_eq!(rt; journal.bytes(), lines.as_bytes());
    Ok(())
}

fn result_of_enumerate(alloc: Global) -> Result<Line, Fail> {
    let mut keys = Keys::new(alloc);
    keys.push(IdKey::Int(-3))?;
    Ok(Line::CommandResult(2, Printed::Ids(keys)))
}

#[test]
fn lines_of_commands(rt: HostRuntime) -> Result<(), Fail> {
    let alloc = rt.alloc();
    let line = result_of_enumerate(alloc)?;
    let mut journal = Journal::new(alloc);
    journal.result(1, &Printed::Code(NpError::NoError))?;
    journal.stream(1, Streamed::Destroy(NpReason::Done))?;
    journal.print(&line)?;
    journal.cut(11);
    assert_eq!(rt; journal.bytes(), b"s 1 destroy 0\n2: ids -3\n".as_slice());
    Ok(())
}
