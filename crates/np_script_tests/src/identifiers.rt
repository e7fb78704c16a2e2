//! Texts, keys and tables of identifiers.
use np_idents::{IdKey, IdText, Idents, Keys};
use np_values::TryCopy;
use std::alloc::Global;
use std::test::Fail;

#[test]
fn keys_are_interned_in_the_order_of_their_first_use(rt: HostRuntime) -> Result<(), Fail> {
    let mut idents = Idents::new(rt.alloc());
    let string = idents.string("12")?;
    let int = idents.int(-12)?;
    let again = idents.string("12")?;
    assert_eq!(rt; (string.place, int.place, again.place), (0, 1, 0));
    Ok(())
}

#[test]
fn a_string_is_looked_up(rt: HostRuntime) -> Result<(), Fail> {
    let mut idents = Idents::new(rt.alloc());
    let id = idents.string("12")?;
    assert_eq!(rt; idents.text(id), Some("12"));
    Ok(())
}

#[test]
fn an_integer_is_looked_up(rt: HostRuntime) -> Result<(), Fail> {
    let mut idents = Idents::new(rt.alloc());
    let id = idents.int(-12)?;
    assert_eq!(rt;
        (idents.is_string(id), idents.number(id)),
        (Some(false), Some(-12))
    );
    Ok(())
}

#[test]
fn a_text_of_256_bytes_is_copied(rt: HostRuntime) -> Result<(), Fail> {
    let alloc = rt.alloc();
    let bytes = vec![in alloc; b'a'; 256]?;
    let longest = str::from_utf8(&bytes)?;
    let text = IdText::new(alloc, longest)?;
    let copy = text.try_copy(alloc)?;
    assert_eq!(rt; copy.as_str(), longest);
    Ok(())
}

/// A string with a byte of each kind that is escaped, and the least integer.
fn keys(alloc: Global) -> Result<Keys, Fail> {
    let text = IdText::new(alloc, "a\"\u{7f}")?;
    let mut keys = Keys::new(alloc);
    keys.push(IdKey::Str(text))?;
    keys.push(IdKey::Int(-2147483648))?;
    Ok(keys)
}

fn print_keys(keys: &[IdKey], out: &mut Vec<u8>) -> Result<(), Fail> {
    for key in keys {
        key.print(out)?;
    }
    Ok(())
}

#[test]
fn keys_are_copied_and_printed(rt: HostRuntime) -> Result<(), Fail> {
    let alloc = rt.alloc();
    let keys = keys(alloc)?;
    let copy = keys.try_copy(alloc)?;
    let mut out = Vec::new(alloc);
    print_keys(copy.as_slice(), &mut out)?;
    assert_eq!(rt; out.as_slice(), b"\"a\\\"\\x7f\"-2147483648".as_slice());
    Ok(())
}
