//! What a class has for an operation.
use np_class::{Found, entry};
use np_idents::{IdKey, Op};
use np_script_grammar::{Body, ClassDef, Member, Members};
use np_values::Text;
use std::test::Fail;

#[test]
fn a_getter_comes_before_a_stored_property(rt: HostRuntime) -> Result<(), Fail> {
    let alloc = rt.alloc();
    let name = Text::new(alloc, b"c")?;
    let mut members = Members::new(alloc);
    members.push(Member::Getter(IdKey::Int(7), Body::new(alloc)))?;
    let class = ClassDef {
        name,
        version: 3,
        stored: true,
        members,
    };
    assert_eq!(rt; entry(&class, &Op::Get(IdKey::Int(7))), Found::Body(0));
    Ok(())
}
