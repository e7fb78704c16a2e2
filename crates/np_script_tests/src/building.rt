//! The value of a script, built line by line.
use np_script_builder::Builder;
use np_script_grammar::{Field, Fields, Place};
use std::test::Fail;

#[test]
fn the_first_line_says_the_version(rt: HostRuntime) -> Result<(), Fail> {
    let alloc = rt.alloc();
    let mut version = Fields::new(alloc);
    version.push(Field::Number(1))?;
    version.push(Field::Number(2))?;
    let mut builder = Builder::new(alloc);
    builder.take(alloc, Place::Head, b"page", version)?;
    let page = builder.page();
    assert_eq!(rt; (page.major, page.minor), (1, 2));
    Ok(())
}
