//! What each side may name of the other.
use np_proxy::{Exports, Imports, Incoming, ProxyError, Release};
use np_values::{Name, Side, Value};
use std::test::Fail;

const OBJECT: Name = Name {
    side: Side::Plug,
    instance: 1,
    serial: 7,
};

const fn release(times: u32) -> Release {
    Release {
        instance: 1,
        serial: 7,
        times,
    }
}

#[test]
fn references_of_an_export_come_back(rt: HostRuntime) -> Result<(), Fail> {
    let mut exports = Exports::new(rt.alloc(), Side::Plug);
    exports.add(OBJECT)?;
    exports.send(OBJECT);
    exports.send(OBJECT);
    assert_eq!(rt; exports.release(true, &release(1)), Ok(false));
    assert_eq!(rt;
        exports.release(true, &release(2)),
        Err(ProxyError::TooMany { times: 2, out: 1 })
    );
    assert_eq!(rt; exports.release(true, &release(1)), Ok(true));
    Ok(())
}

#[test]
fn exports_of_a_dead_instance_are_forgotten(rt: HostRuntime) -> Result<(), Fail> {
    let mut exports = Exports::new(rt.alloc(), Side::Plug);
    exports.add(OBJECT)?;
    exports.send(OBJECT);
    assert_eq!(rt; exports.out(OBJECT), 1);
    exports.purge(1);
    assert_eq!(rt; exports.out(OBJECT), 0);
    exports.drop_name(OBJECT);
    Ok(())
}

#[test]
fn a_proxy_that_goes_leaves_a_release(rt: HostRuntime) -> Result<(), Fail> {
    let alloc = rt.alloc();
    let mut imports = Imports::new(alloc, Side::Page);
    let values = [Value::Object(OBJECT), Value::Null, Value::Object(OBJECT)];
    let incoming = Incoming::new(alloc, Side::Page, &values)?;
    match imports.accept(incoming) {
        Ok(()) => {}
        Err((error, incoming)) => {
            incoming.discard();
            return Err(Fail::from(error));
        }
    }
    imports.unhold(OBJECT);
    assert_eq!(rt; imports.releases().len(), 0);
    imports.unhold(OBJECT);
    assert_eq!(rt; imports.releases(), [release(2)].as_slice());
    imports.clear_releases();
    Ok(())
}

#[test]
fn proxies_of_a_dead_instance_are_forgotten(rt: HostRuntime) -> Result<(), Fail> {
    let alloc = rt.alloc();
    let mut imports = Imports::new(alloc, Side::Page);
    let incoming = Incoming::new(alloc, Side::Page, &[Value::Object(OBJECT)])?;
    match imports.accept(incoming) {
        Ok(()) => {}
        Err((error, incoming)) => {
            incoming.discard();
            return Err(Fail::from(error));
        }
    }
    imports.hold(OBJECT);
    let names = imports.purge(1)?;
    assert_eq!(rt; names.as_slice(), [OBJECT].as_slice());
    Ok(())
}
