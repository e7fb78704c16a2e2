//! Items, appended to bytes.

ghost use Rattle.std.specs.Prelude.{◌≡◌, ◌<◌, ◌++◌, length, OnOk};
ghost use Rattle.std.specs.List.{flat_map};
ghost use Rattle.np_message.specs.Encoding.{number_item, int_item, counted_item, ident_item, name_item, value_item, range_items, release_item};
ghost use Rattle.np_wire_encode.specs.Writing.{Extends};

use np_idents::IdKey;
use np_proxy_release::Release;
use np_values::{Name, NoMemory, Range, Side, Text, Value};

/// Appends a number below 2^32.
pub fn push_number(out: &mut Vec<u8>, number: u32) -> Result<(), NoMemory>
    ensures ok { OnOk result (out.new.items ≡ out.old.items ++ number_item number) }
    ensures kept { Extends out.old.items out.new.items }
{
    out.extend_from_slice(&number.to_be_bytes())?;
    Ok(())
}

/// Appends an integer.
pub fn push_int(out: &mut Vec<u8>, number: i32) -> Result<(), NoMemory>
    ensures ok { OnOk result (out.new.items ≡ out.old.items ++ int_item number) }
    ensures kept { Extends out.old.items out.new.items }
{
    out.extend_from_slice(&number.to_be_bytes())?;
    Ok(())
}

/// Appends bytes after their number.
pub fn push_counted(out: &mut Vec<u8>, bytes: &[u8]) -> Result<(), NoMemory>
    requires { length bytes.now < 65536 }
    ensures ok { OnOk result (out.new.items ≡ out.old.items ++ counted_item bytes.now) }
    ensures kept { Extends out.old.items out.new.items }
{
    out.extend_from_slice(&(bytes.len() as u16).to_be_bytes())?;
    out.extend_from_slice(bytes)?;
    Ok(())
}

/// Appends a text.
pub fn push_text(out: &mut Vec<u8>, text: &Text) -> Result<(), NoMemory>
    ensures ok { OnOk result (out.new.items ≡ out.old.items ++ counted_item text.now) }
    ensures kept { Extends out.old.items out.new.items }
{
    push_counted(out, text.as_str().as_bytes())
}

/// Appends an identifier.
pub fn push_ident(out: &mut Vec<u8>, key: &IdKey) -> Result<(), NoMemory>
    ensures ok { OnOk result (out.new.items ≡ out.old.items ++ ident_item key.now) }
    ensures kept { Extends out.old.items out.new.items }
{
    match key {
        IdKey::Str(text) => {
            out.push(0)?;
            push_counted(out, text.as_str().as_bytes())
        }
        IdKey::Int(number) => {
            out.push(1)?;
            push_int(out, *number)
        }
    }
}

fn push_name(out: &mut Vec<u8>, name: Name) -> Result<(), NoMemory>
    ensures ok { OnOk result (out.new.items ≡ out.old.items ++ name_item name) }
    ensures kept { Extends out.old.items out.new.items }
{
    let side = match name.side {
        Side::Page => 0,
        Side::Plug => 1,
    };
    out.extend_from_slice(&[side, name.instance])?;
    push_number(out, name.serial)
}

/// Appends a value.
pub fn push_value(out: &mut Vec<u8>, value: &Value) -> Result<(), NoMemory>
    ensures ok { OnOk result (out.new.items ≡ out.old.items ++ value_item value.now) }
    ensures kept { Extends out.old.items out.new.items }
{
    match value {
        Value::Void => out.push(0)?,
        Value::Null => out.push(1)?,
        Value::Bool(truth) => out.extend_from_slice(&[2, if *truth { 1 } else { 0 }])?,
        Value::Int(number) => {
            out.push(3)?;
            push_int(out, *number)?;
        }
        Value::Double(bytes) => {
            out.push(4)?;
            out.extend_from_slice(bytes)?;
        }
        Value::Text(text) => {
            out.push(5)?;
            push_text(out, text)?;
        }
        Value::Object(name) => {
            out.push(6)?;
            push_name(out, *name)?;
        }
    }
    Ok(())
}

fn push_range(out: &mut Vec<u8>, range: Range) -> Result<(), NoMemory>
    ensures ok { OnOk result (out.new.items ≡ out.old.items ++ range_items range) }
    ensures kept { Extends out.old.items out.new.items }
{
    push_int(out, range.offset)?;
    push_number(out, range.length)
}

fn push_release(out: &mut Vec<u8>, release: Release) -> Result<(), NoMemory>
    ensures ok { OnOk result (out.new.items ≡ out.old.items ++ release_item release) }
    ensures kept { Extends out.old.items out.new.items }
{
    out.push(release.instance)?;
    push_number(out, release.serial)?;
    push_number(out, release.times)
}

/// Appends texts, one after another.
pub fn push_texts(out: &mut Vec<u8>, texts: &[Text]) -> Result<(), NoMemory>
    ensures ok { OnOk result (out.new.items ≡ out.old.items ++ flat_map counted_item texts.now) }
    ensures kept { Extends out.old.items out.new.items }
{
    for text in texts {
        push_text(out, text)?;
    }
    Ok(())
}

/// Appends identifiers, one after another.
pub fn push_idents(out: &mut Vec<u8>, keys: &[IdKey]) -> Result<(), NoMemory>
    ensures ok { OnOk result (out.new.items ≡ out.old.items ++ flat_map ident_item keys.now) }
    ensures kept { Extends out.old.items out.new.items }
{
    for key in keys {
        push_ident(out, key)?;
    }
    Ok(())
}

/// Appends values, one after another.
pub fn push_values(out: &mut Vec<u8>, values: &[Value]) -> Result<(), NoMemory>
    ensures ok { OnOk result (out.new.items ≡ out.old.items ++ flat_map value_item values.now) }
    ensures kept { Extends out.old.items out.new.items }
{
    for value in values {
        push_value(out, value)?;
    }
    Ok(())
}

/// Appends ranges, one after another.
pub fn push_ranges(out: &mut Vec<u8>, ranges: &[Range]) -> Result<(), NoMemory>
    ensures ok { OnOk result (out.new.items ≡ out.old.items ++ flat_map range_items ranges.now) }
    ensures kept { Extends out.old.items out.new.items }
{
    for range in ranges {
        push_range(out, *range)?;
    }
    Ok(())
}

/// Appends releases, one after another.
pub fn push_releases(out: &mut Vec<u8>, releases: &[Release]) -> Result<(), NoMemory>
    ensures ok { OnOk result (out.new.items ≡ out.old.items ++ flat_map release_item releases.now) }
    ensures kept { Extends out.old.items out.new.items }
{
    for release in releases {
        push_release(out, *release)?;
    }
    Ok(())
}
