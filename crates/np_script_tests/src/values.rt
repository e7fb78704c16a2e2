//! Values, texts and lists, and the numbers and words of npapi.h.
use np_values::{
    Bytes, Handler, Name, NpError, NpReason, Side, StreamMode, Text, TryCopy, Value, Values,
    push_int, push_name, push_number, push_quoted,
};
use std::alloc::Global;
use std::test::Fail;

#[test]
fn a_text_is_copied(rt: HostRuntime) -> Result<(), Fail> {
    let alloc = rt.alloc();
    let text = Text::new(alloc, b"ab")?;
    let copy = text.try_copy(alloc)?;
    assert_eq!(rt; copy.as_str(), "ab");
    Ok(())
}

#[test]
fn a_text_has_up_to_2048_bytes(rt: HostRuntime) -> Result<(), Fail> {
    let alloc = rt.alloc();
    let bytes = vec![in alloc; b'a'; 2048]?;
    let text = Text::new(alloc, &bytes)?;
    assert_eq!(rt; text.as_str().len(), 2048);
    Ok(())
}

#[test]
fn numbers_of_npapi(rt: HostRuntime) {
    assert_eq!(rt; NpError::IncompatibleVersion.code(), 8);
    assert_eq!(rt; NpError::from_code(13), Some(NpError::StreamNotSeekable));
    assert_eq!(rt; NpReason::UserBreak.code(), 2);
    assert_eq!(rt; NpReason::from_code(1), Some(NpReason::NetworkErr));
    assert_eq!(rt; StreamMode::Normal.code(), 1);
    assert_eq!(rt; StreamMode::from_code(4), Some(StreamMode::AsFileOnly));
}

#[test]
fn words_of_handlers(rt: HostRuntime) {
    assert_eq!(rt; Handler::Scriptable.word(), "scriptable");
    assert_eq!(rt;
        Handler::from_word(b"urlnotify".as_slice()),
        Some(Handler::UrlNotify)
    );
}

#[test]
fn a_list_of_bytes_keeps_its_order(rt: HostRuntime) -> Result<(), Fail> {
    let mut list = Bytes::new(rt.alloc());
    list.push(1)?;
    list.push(2)?;
    assert_eq!(rt; list.as_slice(), [1, 2].as_slice());
    Ok(())
}

fn two_values(alloc: Global) -> Result<Values, Fail> {
    let text = Text::new(alloc, b"x")?;
    let mut values = Values::new(alloc);
    values.push(Value::Int(5))?;
    values.push(Value::Text(text))?;
    Ok(values)
}

#[test]
fn a_list_of_values_is_copied(rt: HostRuntime) -> Result<(), Fail> {
    let alloc = rt.alloc();
    let values = two_values(alloc)?;
    let copy = values.try_copy(alloc)?;
    assert!(rt; copy.as_slice() == values.as_slice());
    Ok(())
}

fn print_values(values: &[Value], out: &mut Vec<u8>) -> Result<(), Fail> {
    for value in values {
        value.print(false, out)?;
        out.push(b',')?;
    }
    Ok(())
}

#[test]
fn values_are_printed(rt: HostRuntime) -> Result<(), Fail> {
    let alloc = rt.alloc();
    let special = Text::new(alloc, b"a\"b\\c\x00\x1f\x7f \xc3\xa9")?;
    let values = [
        Value::Void,
        Value::Null,
        Value::Bool(true),
        Value::Int(-2147483648),
        Value::Double([63, 248, 0, 0, 0, 0, 1, 171]),
        Value::Text(special),
    ];
    let mut out = Vec::new(alloc);
    print_values(&values, &mut out)?;
    assert_eq!(rt;
        out.as_slice(),
        b"void,null,bool true,int -2147483648,double 3ff80000000001ab,text \"a\\\"b\\\\c\\x00\\x1f\\x7f \xc3\xa9\",".as_slice()
    );
    Ok(())
}

#[test]
fn a_dead_object_is_printed(rt: HostRuntime) -> Result<(), Fail> {
    let name = Name {
        side: Side::Plug,
        instance: 1,
        serial: 2,
    };
    let mut out = Vec::new(rt.alloc());
    Value::Object(name).print(true, &mut out)?;
    assert_eq!(rt; out.as_slice(), b"object plug:1:2 dead".as_slice());
    Ok(())
}

#[test]
fn numbers_names_and_quoted_texts_are_appended(rt: HostRuntime) -> Result<(), Fail> {
    let name = Name {
        side: Side::Page,
        instance: 1,
        serial: 10,
    };
    let mut out = Vec::new(rt.alloc());
    push_number(&mut out, 18446744073709551615)?;
    push_int(&mut out, -7)?;
    push_quoted(&mut out, b"\n")?;
    push_name(&mut out, name)?;
    assert_eq!(rt;
        out.as_slice(),
        b"18446744073709551615-7\"\\x0a\"page:1:10".as_slice()
    );
    Ok(())
}
