//! The end lines of a run.
use np_end_lines::{FixedEnd, finish, finish_refused, finish_script, finish_unbuilt};
use np_model::{Refusal, Rule};
use np_ports::SureSink;
use np_script_grammar::{ScriptError, ScriptKind};

#[test]
fn a_status_has_an_end_line(rt: HostRuntime) {
    let alloc = rt.alloc();
    let mut out = SureSink::new(alloc);
    assert_eq!(rt; finish(&mut out, FixedEnd::NotStarted), Ok(11));
    assert_eq!(rt; out.bytes(), b"end 11\n".as_slice());
}

#[test]
fn a_refusal_has_an_end_line(rt: HostRuntime) {
    let alloc = rt.alloc();
    let refusal = Refusal {
        at: 18,
        rule: Rule::WrongKind,
        first: 5,
        second: u64::MAX,
    };
    let mut out = SureSink::new(alloc);
    assert_eq!(rt; finish_refused(alloc, &mut out, refusal), Ok(7));
    assert_eq!(rt;
        out.bytes(),
        b"end 7 at 18 wrong-kind 5 18446744073709551615\n".as_slice()
    );
}

#[test]
fn a_script_has_an_end_line(rt: HostRuntime) {
    let alloc = rt.alloc();
    let error = ScriptError {
        line: 1048577,
        kind: ScriptKind::End,
    };
    let mut out = SureSink::new(alloc);
    assert_eq!(rt; finish_script(alloc, &mut out, error), Ok(3));
    assert_eq!(rt; finish_unbuilt(&mut out), Ok(3));
    assert_eq!(rt;
        out.bytes(),
        b"end 3 line 1048577 end\nend 3 unbuilt\n".as_slice()
    );
}
