//! What is measured of the references between the sides.

ghost use Rattle.std.specs.Prelude.{◌≡◌, ◌<◌, ◌≤◌, ◌+◌, length, All, IfOk, IfErr, OnOk, false};
ghost use Rattle.np_values.specs.declared.name.Name.{Name};
ghost use Rattle.np_values.specs.declared.name.Side.TheVariants.{Page, Plug};
ghost use Rattle.np_proxy.specs.Exports.{is_exported};
ghost use Rattle.np_table_speed.specs.References.{IsReady, AreEarlier, IsHeldProxy, IsCounting, HasOneMore, IsStopped};

use np_objects::same_names_are_equal;
use np_proxy::{
    Exports, Imports, Incoming, ProxyError, Release, exports_are_kept, exports_count, imports_count,
};
use np_values::{Name, NoMemory, Side, Value};
use std::alloc::Global;

/// An object of one of four instances in turn.
fn name_of(side: Side, number: u32) -> Name
    requires few { number < 1024 }
    ensures side { result.side ≡ side }
    ensures serial { result.serial ≡ number + 1 }
{
    Name {
        side,
        instance: (number % 4) as u8 + 1,
        serial: number + 1,
    }
}

/// Exports 1,024 objects, and gives their names.
pub fn fill_exports(alloc: Global, exports: &mut Exports) -> Result<Vec<Name>, NoMemory>
    requires own { exports.old.side ≡ Plug }
    requires none { (x : Name) → is_exported exports.old x ≡ false }
    ensures own { OnOk result (exports.new.side ≡ Plug) }
    ensures ready { IfOk result (λ names. All (λ x. IsReady x exports.new) names.items) }
    ensures all { IfOk result (λ names. length names.items ≡ 1024) }
{
    let mut names = Vec::new(alloc);
    for number in 0..1024u32 {
        add_export(exports, number, &mut names)?;
    }
    Ok(names)
}

fn add_export(exports: &mut Exports, number: u32, names: &mut Vec<Name>) -> Result<(), NoMemory>
    requires few { number < 1024 }
    requires own { exports.old.side ≡ Plug }
    requires earlier { AreEarlier number exports.old }
    requires ready { All (λ x. IsReady x exports.old) names.old.items }
    ensures own { OnOk result (exports.new.side ≡ Plug) }
    ensures earlier { OnOk result (AreEarlier (number + 1) exports.new) }
    ensures ready { OnOk result (All (λ x. IsReady x exports.new) names.new.items) }
    ensures one { OnOk result (length names.new.items ≡ length names.old.items + 1) }
{
    exports_count();
    exports_are_kept();
    same_names_are_equal();
    let name = name_of(Side::Plug, number);
    exports.add(name)?;
    names.push(name)?;
    Ok(())
}

/// Sends a reference to each object and takes it back, so many times over; 3 where one isn't taken back.
pub fn send_each(exports: &mut Exports, names: &[Name], times: u32) -> u8
    requires own { exports.old.side ≡ Plug }
    requires ready { All (λ x. IsReady x exports.old) names.now }
    ensures done { result ≡ 0 }
{
    for turn in 0..times {
        let status = send_once(exports, names);
        if status != 0 {
            return status;
        }
    }
    0
}

fn send_once(exports: &mut Exports, names: &[Name]) -> u8
    requires own { exports.old.side ≡ Plug }
    requires ready { All (λ x. IsReady x exports.old) names.now }
    ensures done { result ≡ 0 }
    ensures own { exports.new.side ≡ Plug }
    ensures ready { All (λ x. IsReady x exports.new) names.now }
{
    exports_count();
    exports_are_kept();
    same_names_are_equal();
    for name in names {
        exports.send(*name);
        let release = Release {
            instance: name.instance,
            serial: name.serial,
            times: 1,
        };
        match exports.release(true, &release) {
            Ok(_) => {}
            Err(_) => return 3,
        }
    }
    0
}

/// Takes up 1,024 names, and gives them.
pub fn fill_imports(alloc: Global, imports: &mut Imports) -> Result<Vec<Name>, ProxyError>
    requires counting { IsCounting 0 imports.old }
    ensures counting { OnOk result (IsCounting 1024 imports.new) }
    ensures held { IfOk result (λ names. All (λ x. IsHeldProxy x imports.new) names.items) }
    ensures all { IfOk result (λ names. length names.items ≡ 1024) }
    ensures cause { IfErr result IsStopped }
{
    let mut names = Vec::new(alloc);
    for number in 0..1024u32 {
        add_import(alloc, imports, number, &mut names)?;
    }
    Ok(names)
}

fn add_import(
    alloc: Global,
    imports: &mut Imports,
    number: u32,
    names: &mut Vec<Name>,
) -> Result<(), ProxyError>
    requires few { number < 1024 }
    requires counting { IsCounting number imports.old }
    requires held { All (λ x. IsHeldProxy x imports.old) names.old.items }
    ensures counting { OnOk result (IsCounting (number + 1) imports.new) }
    ensures held { OnOk result (All (λ x. IsHeldProxy x imports.new) names.new.items) }
    ensures one { OnOk result (length names.new.items ≡ length names.old.items + 1) }
    ensures cause { IfErr result IsStopped }
{
    same_names_are_equal();
    let name = name_of(Side::Page, number);
    accept_one(alloc, imports, name, number)?;
    match names.push(name) {
        Ok(()) => Ok(()),
        Err(_) => Err(ProxyError::NoMemory),
    }
}

/// Takes up one name, of which no more than so many references are held.
fn accept_one(alloc: Global, imports: &mut Imports, name: Name, most: u32) -> Result<(), ProxyError>
    requires other { name.side ≡ Page }
    requires counting { IsCounting most imports.old }
    ensures more { OnOk result (HasOneMore name imports.old imports.new) }
    ensures cause { IfErr result IsStopped }
{
    imports_count();
    let values = [Value::Object(name)];
    let incoming = match Incoming::new(alloc, Side::Plug, values.as_slice()) {
        Ok(incoming) => incoming,
        Err(NoMemory) => return Err(ProxyError::NoMemory),
    };
    match imports.accept(incoming) {
        Ok(()) => Ok(()),
        Err((error, incoming)) => {
            incoming.discard();
            Err(error)
        }
    }
}

/// Takes each name up once more and drops that reference, so many times over.
pub fn accept_each(
    alloc: Global,
    imports: &mut Imports,
    names: &[Name],
    times: u32,
) -> Result<(), ProxyError>
    requires counting { IsCounting 1024 imports.old }
    requires held { All (λ x. IsHeldProxy x imports.old) names.now }
    ensures cause { IfErr result IsStopped }
{
    for turn in 0..times {
        accept_once(alloc, imports, names)?;
    }
    Ok(())
}

fn accept_once(alloc: Global, imports: &mut Imports, names: &[Name]) -> Result<(), ProxyError>
    requires counting { IsCounting 1024 imports.old }
    requires held { All (λ x. IsHeldProxy x imports.old) names.now }
    ensures counting { OnOk result (IsCounting 1024 imports.new) }
    ensures held { OnOk result (All (λ x. IsHeldProxy x imports.new) names.now) }
    ensures cause { IfErr result IsStopped }
{
    imports_count();
    same_names_are_equal();
    for name in names {
        accept_one(alloc, imports, *name, 1024)?;
        imports.unhold(*name);
    }
    Ok(())
}

/// Holds each name once more and drops that reference, so many times over.
pub fn hold_proxies(imports: &mut Imports, names: &[Name], times: u32)
    requires counting { IsCounting 1024 imports.old }
    requires held { All (λ x. IsHeldProxy x imports.old) names.now }
{
    for turn in 0..times {
        hold_proxies_once(imports, names);
    }
}

fn hold_proxies_once(imports: &mut Imports, names: &[Name])
    requires counting { IsCounting 1024 imports.old }
    requires held { All (λ x. IsHeldProxy x imports.old) names.now }
    ensures counting { IsCounting 1024 imports.new }
    ensures held { All (λ x. IsHeldProxy x imports.new) names.now }
{
    imports_count();
    same_names_are_equal();
    for name in names {
        imports.hold(*name);
        imports.unhold(*name);
    }
}

/// Drops the last reference to each object, lets a message carry its release, and takes the name up again, so many times over.
pub fn renew_each(
    alloc: Global,
    imports: &mut Imports,
    names: &[Name],
    times: u32,
) -> Result<(), ProxyError>
    requires counting { IsCounting 1024 imports.old }
    requires held { All (λ x. IsHeldProxy x imports.old) names.now }
    ensures cause { IfErr result IsStopped }
{
    for turn in 0..times {
        renew_once(alloc, imports, names)?;
    }
    Ok(())
}

fn renew_once(alloc: Global, imports: &mut Imports, names: &[Name]) -> Result<(), ProxyError>
    requires counting { IsCounting 1024 imports.old }
    requires held { All (λ x. IsHeldProxy x imports.old) names.now }
    ensures counting { OnOk result (IsCounting 1024 imports.new) }
    ensures held { OnOk result (All (λ x. IsHeldProxy x imports.new) names.now) }
    ensures cause { IfErr result IsStopped }
{
    same_names_are_equal();
    for name in names {
        give_back(imports, *name);
        accept_one(alloc, imports, *name, 1024)?;
    }
    Ok(())
}

/// Drops a reference, and lets a message carry what is pending.
fn give_back(imports: &mut Imports, name: Name)
    requires held { IsHeldProxy name imports.old }
    requires counting { IsCounting 1024 imports.old }
    ensures fewer { HasOneMore name imports.new imports.old }
{
    imports_count();
    same_names_are_equal();
    imports.releases();
    imports.unhold(name);
    imports.releases();
    imports.clear_releases();
}
