//! The words of a line, read and printed.
use np_idents::IdKey;
use np_script_grammar::{Field, Item, Place};
use np_script_words::{
    FieldError, form_at, is_plain_line, next_word, push_field, push_handler, push_key, push_mode,
    push_operand, push_register, push_value, read_field, read_fields, read_int, read_key,
    read_number, read_operand, read_register, read_text,
};
use np_values::{Handler, Side, Value};
use std::alloc::Global;
use std::test::Fail;

/// How many fields stand after the first word of a command's line.
fn count(alloc: Global, line: &[u8]) -> Result<usize, FieldError> {
    let Some((word, rest)) = next_word(line) else {
        return Err(FieldError::Form);
    };
    let Some(form) = form_at(Side::Page, Place::Commands, word) else {
        return Err(FieldError::Form);
    };
    let fields = read_fields(alloc, form, rest)?;
    Ok(fields.len())
}

#[test]
fn fields_of_a_line_are_read(rt: HostRuntime) {
    let count = count(rt.alloc(), b" invoke  $0 $1 \"f g\" 1 2 ");
    assert_eq!(rt; count, Ok(5));
}

#[test]
fn a_line_of_utf8_is_plain(rt: HostRuntime) {
    assert!(rt; is_plain_line("note \"\u{e9}\"".as_bytes()));
}

#[test]
fn numbers_and_registers_are_read(rt: HostRuntime) {
    assert_eq!(rt; read_int(b"-5"), Some(-5));
    assert_eq!(rt; read_number(1, 5, b"5"), Some(5));
    assert_eq!(rt; read_register(b"$3"), Some(3));
}

#[test]
fn a_field_is_read(rt: HostRuntime) {
    let field = read_field(rt.alloc(), Item::Number(0, 9), b"7");
    assert!(rt; matches!(field, Ok(Field::Number(7))));
}

fn push_read_words(alloc: Global, out: &mut Vec<u8>) -> Result<(), Fail> {
    let operand = read_operand(alloc, b"\"\\x0a\"")?;
    let key = read_key(alloc, b"\"k\"")?;
    let text = read_text(alloc, b"\"t\"")?;
    push_operand(out, &operand)?;
    push_key(out, &key)?;
    push_field(out, &Field::Text(text))?;
    Ok(())
}

#[test]
fn words_that_were_read_are_appended(rt: HostRuntime) -> Result<(), Fail> {
    let alloc = rt.alloc();
    let mut out = Vec::new(alloc);
    push_read_words(alloc, &mut out)?;
    assert_eq!(rt; out.as_slice(), b"\"\\x0a\"\"k\"\"t\"".as_slice());
    Ok(())
}

#[test]
fn words_are_appended(rt: HostRuntime) -> Result<(), Fail> {
    let mut out = Vec::new(rt.alloc());
    push_register(&mut out, 15)?;
    push_value(
        &mut out,
        &Value::Double([0, 1, 2, 3, 0x7f, 0x80, 0xab, 0xff]),
    )?;
    push_key(&mut out, &IdKey::Int(-1))?;
    push_mode(&mut out, 2)?;
    push_handler(&mut out, Handler::AsFile)?;
    assert_eq!(rt;
        out.as_slice(),
        b"$15d:000102037f80abff-1fullasfile".as_slice()
    );
    Ok(())
}
