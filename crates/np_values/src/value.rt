ghost use Rattle.std.specs.Prelude.{◌≡◌, ◌++◌, List, ℕ, IfOk, OnOk, OnErr};
ghost use Rattle.np_values.specs.Value.{printed};

use crate::printing::{push_hex, push_int, push_name, push_quoted, push_str};
use crate::{Name, NoMemory, Text, TryCopy};
use std::alloc::Global;

/// What scripts compute with and calls carry. (npruntime.h, NPVariant.)
#[derive(Drop, PartialEq, Eq)]
pub enum Value {
    Void,
    Null,
    Bool(bool),
    Int(i32),
    /// The eight bytes of a double, with the sign's byte first. (IEEE 754, binary64.)
    Double([u8; 8]),
    Text(Text),
    /// A reference to the object of this name.
    Object(Name),
}

impl Value {
    /// An equal value. A copied object names the same object; nobody counts a reference for it. An `Err`
    /// means that memory ran out.
    pub fn try_copy(&self, alloc: Global) -> Result<Value, NoMemory>
        ensures value { IfOk result (λ copy. copy ≡ self.now) }
    {
        match self {
            Value::Void => Ok(Value::Void),
            Value::Null => Ok(Value::Null),
            Value::Bool(truth) => Ok(Value::Bool(*truth)),
            Value::Int(number) => Ok(Value::Int(*number)),
            Value::Double(bytes) => Ok(Value::Double(*bytes)),
            Value::Text(text) => Ok(Value::Text(text.try_copy(alloc)?)),
            Value::Object(name) => Ok(Value::Object(*name)),
        }
    }

    /// Appends the value as journals print it, such as `int 7` or `object page:1:2 dead`. `dead` says whether
    /// the named object's instance is dead; it matters for objects only. An `Err` means that memory ran out;
    /// `out` is then as it was. (This project's own.)
    pub fn print(&self, dead: bool, out: &mut Vec<u8>) -> Result<(), NoMemory>
        ensures ok { OnOk result (out.new.items ≡ out.old.items ++ printed dead self.now) }
        ensures err { OnErr result (out.new.items ≡ out.old.items) }
    {
        let length = out.len();
        match push_printed(self, dead, out) {
            Ok(()) => Ok(()),
            Err(NoMemory) => {
                out.truncate(length);
                Err(NoMemory)
            }
        }
    }
}

// The printed form. Where memory runs out, a part of it may stand.
fn push_printed(value: &Value, dead: bool, out: &mut Vec<u8>) -> Result<(), NoMemory>
    ensures ok { OnOk result (out.new.items ≡ out.old.items ++ printed dead value.now) }
    ensures begins { (rest : List ℕ) × (out.new.items ≡ out.old.items ++ rest) }
{
    match value {
        Value::Void => push_str(out, "void"),
        Value::Null => push_str(out, "null"),
        Value::Bool(truth) => push_str(out, if *truth { "bool true" } else { "bool false" }),
        Value::Int(number) => {
            push_str(out, "int ")?;
            push_int(out, *number)
        }
        Value::Double(bytes) => {
            push_str(out, "double ")?;
            push_hex(out, bytes)
        }
        Value::Text(text) => {
            push_str(out, "text ")?;
            push_quoted(out, text.as_str().as_bytes())
        }
        Value::Object(name) => {
            push_str(out, "object ")?;
            push_name(out, *name)?;
            push_str(out, if dead { " dead" } else { "" })
        }
    }
}

impl TryCopy for Value {
    fn try_copy(&self, alloc: Global) -> Result<Value, NoMemory> {
        Value::try_copy(self, alloc)
    }
}
