//! Where a script stands after its lines.
use np_script_order::{Order, OrderError};
use np_script_words::{form_at, read_fields};
use np_values::Side;
use std::alloc::Global;
use std::test::Fail;

/// Continues a page after a line of this word and this rest.
fn accept(alloc: Global, order: &mut Order, word: &[u8], rest: &[u8]) -> Result<(), OrderError> {
    let Some(form) = form_at(Side::Page, order.place(), word) else {
        return Err(OrderError::NoMemory);
    };
    match read_fields(alloc, form, rest) {
        Ok(fields) => order.accept(word, rest, &fields),
        Err(_) => Err(OrderError::NoMemory),
    }
}

#[test]
fn a_class_of_that_name_is_there(rt: HostRuntime) -> Result<(), Fail> {
    let alloc = rt.alloc();
    let mut order = Order::new(alloc);
    accept(alloc, &mut order, b"page", b" 0 27")?;
    accept(alloc, &mut order, b"class", b" \"A\" 1")?;
    accept(alloc, &mut order, b"endclass", b"")?;
    let again = accept(alloc, &mut order, b"class", b"  \"A\"  2");
    assert_eq!(rt; again, Err(OrderError::Twice));
    Ok(())
}
