//! Whole scripts, read and printed in their canonical text.
use np_script::{
    ParseError, ScriptError, ScriptKind, parse_page, parse_plugin, print_page, print_plugin,
};
use np_values::TryCopy;
use std::test::Fail;

const PAGE: &str =
    "  page 0   27\n# c\nresource \"u\" \"t/p\" 2 \"ab\"\nclass \"Bag\" 3\nmethod \"m\"\nnote $0\nend\ndata\nendclass\ndo\nput $0 \"12\" 1\nput $0 12 2";

const CANONICAL_PAGE: &str =
    "page 0 27\nclass \"Bag\" 3\ndata\nmethod \"m\"\nnote $0\nend\nendclass\nresource \"u\" \"t/p\" 2 \"ab\"\ndo\nput $0 \"12\" 1\nput $0 12 2\n";

#[test]
fn a_page_is_read_and_printed(rt: HostRuntime) -> Result<(), Fail> {
    let alloc = rt.alloc();
    let script = parse_page(alloc, PAGE.as_bytes())?;
    let mut out = Vec::new(alloc);
    print_page(script.page(), &mut out)?;
    assert_eq!(rt; out.as_slice(), CANONICAL_PAGE.as_bytes());
    Ok(())
}

const PLUGIN: &str =
    "plugin 0 27\ntask \"a\"\nend\nclass \"C\" 1\ndata\nendclass\nhandler new\nreturn 0\nend";

const CANONICAL_PLUGIN: &str =
    "plugin 0 27\nclass \"C\" 1\ndata\nendclass\nhandler new\nreturn 0\nend\ntask \"a\"\nend\n";

#[test]
fn a_plugin_is_read_and_printed(rt: HostRuntime) -> Result<(), Fail> {
    let alloc = rt.alloc();
    let script = parse_plugin(alloc, PLUGIN.as_bytes())?;
    let mut out = Vec::new(alloc);
    print_plugin(script.plugin(), &mut out)?;
    assert_eq!(rt; out.as_slice(), CANONICAL_PLUGIN.as_bytes());
    Ok(())
}

#[test]
fn a_page_ends_too_early(rt: HostRuntime) -> Result<(), Fail> {
    let refused = parse_page(rt.alloc(), b"page 0 27\nclass \"C\" 1\n");
    let error = ScriptError {
        line: 3,
        kind: ScriptKind::End,
    };
    assert!(rt; refused.err() == Some(ParseError::Script(error)));
    Ok(())
}

#[test]
fn a_resource_is_copied(rt: HostRuntime) -> Result<(), Fail> {
    let alloc = rt.alloc();
    let script = parse_page(alloc, PAGE.as_bytes())?;
    let copy = script.page().resources.try_copy(alloc)?;
    let resource = copy.as_slice().first().ok_or("none")?;
    assert_eq!(rt; resource.mime.as_str(), "t/p");
    assert_eq!(rt; resource.content.as_slice(), b"abab".as_slice());
    Ok(())
}
