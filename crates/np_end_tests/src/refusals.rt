//! Why a message is refused.
use np_endpoint::{Fault, Refusal, Rule, unknown_release};
use np_model::Phase;
use np_proxy_release::{Release, Releases};
use std::test::Fail;

#[test]
fn a_fault_is_refused_with_its_numbers(rt: HostRuntime) {
    let fault = Fault {
        rule: Rule::WrongKind,
        first: 5,
        second: 7,
    };
    let refusal = Refusal {
        at: 11,
        rule: Rule::WrongKind,
        first: 5,
        second: 7,
    };
    assert_eq!(rt; fault.refusal(11), refusal);
}

#[test]
fn a_release_of_no_instance_is_refused(rt: HostRuntime) -> Result<(), Fail> {
    let mut releases = Releases::new(rt.alloc());
    releases.push(Release {
        instance: 4,
        serial: 7,
        times: 2,
    })?;
    let fault = Fault {
        rule: Rule::Unknown,
        first: 4,
        second: 7,
    };
    assert_eq!(rt; unknown_release(&[Phase::Live], &releases), Some(fault));
    Ok(())
}
