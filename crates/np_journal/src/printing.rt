//! What lines say. Where memory runs out, a part of it may stand.
ghost use Rattle.std.specs.Prelude.{◌≡◌, ◌++◌, ◌∷◌, List, ℕ, OnOk, codes};
ghost use Rattle.std.specs.Fmt.{decimal, signed_decimal};
ghost use Rattle.std.specs.List.{flat_map};
ghost use Rattle.np_values.specs.Handler.{handler_word};
ghost use Rattle.np_values.specs.Quoted.{quoted};
ghost use Rattle.np_values.specs.Value.{printed, printed_name};
ghost use Rattle.np_journal.specs.Line.{printed_op, printed_stream, printed_result, spaced_key};
ghost use Rattle.np_idents.specs.IdKey.{printed_key};
ghost use Rattle.np_journal.specs.declared.streamed.Streamed.TheVariants.{Write};

use crate::{Printed, Streamed};
use np_idents::{IdKey, Op};
use np_values::{
    Handler, Name, NoMemory, Text, Value, push_int, push_name, push_number, push_quoted,
};

/// A mark and a name.
pub fn push_named(out: &mut Vec<u8>, mark: &str, name: Name) -> Result<(), NoMemory>
    ensures ok { OnOk result (out.new.items ≡ out.old.items ++ (mark.now ++ printed_name name)) }
    ensures begins { (rest : List ℕ) × (out.new.items ≡ out.old.items ++ rest) }
{
    out.extend_from_slice(mark.as_bytes())?;
    push_name(out, name)
}

/// A mark and an instance's number.
fn push_instance(out: &mut Vec<u8>, mark: &str, instance: u8) -> Result<(), NoMemory>
    ensures ok { OnOk result (out.new.items ≡ out.old.items ++ (mark.now ++ decimal instance)) }
    ensures begins { (rest : List ℕ) × (out.new.items ≡ out.old.items ++ rest) }
{
    out.extend_from_slice(mark.as_bytes())?;
    push_number(out, u64::from(instance))
}

/// A handler of an instance.
pub fn push_handler(out: &mut Vec<u8>, instance: u8, which: Handler) -> Result<(), NoMemory>
    ensures ok { OnOk result (out.new.items ≡ out.old.items ++ (codes "> inst:" ++ (decimal instance ++ (32 ∷ handler_word which)))) }
    ensures begins { (rest : List ℕ) × (out.new.items ≡ out.old.items ++ rest) }
{
    push_instance(out, "> inst:", instance)?;
    out.push(b' ')?;
    out.extend_from_slice(which.word().as_bytes())?;
    Ok(())
}

/// A mark, an instance's number, a word and a task's name.
pub fn push_task(
    out: &mut Vec<u8>,
    mark: &str,
    instance: u8,
    word: &str,
    name: &Text,
) -> Result<(), NoMemory>
    ensures ok { OnOk result (out.new.items ≡ out.old.items ++ (mark.now ++ (decimal instance ++ (word.now ++ quoted name.now)))) }
    ensures begins { (rest : List ℕ) × (out.new.items ≡ out.old.items ++ rest) }
{
    push_instance(out, mark, instance)?;
    out.extend_from_slice(word.as_bytes())?;
    push_quoted(out, name.as_str().as_bytes())
}

/// A word and a value.
pub fn push_value(out: &mut Vec<u8>, word: &str, value: &Value, dead: bool) -> Result<(), NoMemory>
    ensures ok { OnOk result (out.new.items ≡ out.old.items ++ (word.now ++ printed dead value.now)) }
    ensures begins { (rest : List ℕ) × (out.new.items ≡ out.old.items ++ rest) }
{
    out.extend_from_slice(word.as_bytes())?;
    value.print(dead, out)
}

/// An entry of an object: its name and the operation.
pub fn push_entry(out: &mut Vec<u8>, name: Name, op: &Op) -> Result<(), NoMemory>
    ensures ok { OnOk result (out.new.items ≡ out.old.items ++ (codes "> " ++ (printed_name name ++ (32 ∷ printed_op op.now)))) }
    ensures begins { (rest : List ℕ) × (out.new.items ≡ out.old.items ++ rest) }
{
    push_named(out, "> ", name)?;
    out.push(b' ')?;
    push_op(out, op)
}

fn push_op(out: &mut Vec<u8>, op: &Op) -> Result<(), NoMemory>
    ensures ok { OnOk result (out.new.items ≡ out.old.items ++ printed_op op.now) }
    ensures begins { (rest : List ℕ) × (out.new.items ≡ out.old.items ++ rest) }
{
    match op {
        Op::Invoke(key) => push_keyed(out, "invoke ", key),
        Op::Default => push_word(out, "default"),
        Op::Construct => push_word(out, "construct"),
        Op::Get(key) => push_keyed(out, "get ", key),
        Op::Put(key) => push_keyed(out, "set ", key),
        Op::Remove(key) => push_keyed(out, "remove ", key),
        Op::HasMethod(key) => push_keyed(out, "hasmethod ", key),
        Op::HasProperty(key) => push_keyed(out, "hasproperty ", key),
        Op::Enumerate => push_word(out, "enumerate"),
    }
}

fn push_word(out: &mut Vec<u8>, word: &str) -> Result<(), NoMemory>
    ensures ok { OnOk result (out.new.items ≡ out.old.items ++ word.now) }
    ensures begins { (rest : List ℕ) × (out.new.items ≡ out.old.items ++ rest) }
{
    out.extend_from_slice(word.as_bytes())?;
    Ok(())
}

fn push_keyed(out: &mut Vec<u8>, word: &str, key: &IdKey) -> Result<(), NoMemory>
    ensures ok { OnOk result (out.new.items ≡ out.old.items ++ (word.now ++ printed_key key.now)) }
    ensures begins { (rest : List ℕ) × (out.new.items ≡ out.old.items ++ rest) }
{
    out.extend_from_slice(word.as_bytes())?;
    key.print(out)
}

fn push_numbered(out: &mut Vec<u8>, word: &str, number: u32) -> Result<(), NoMemory>
    ensures ok { OnOk result (out.new.items ≡ out.old.items ++ (word.now ++ decimal number)) }
    ensures begins { (rest : List ℕ) × (out.new.items ≡ out.old.items ++ rest) }
{
    out.extend_from_slice(word.as_bytes())?;
    push_number(out, u64::from(number))
}

fn push_signed(out: &mut Vec<u8>, word: &str, number: i32) -> Result<(), NoMemory>
    ensures ok { OnOk result (out.new.items ≡ out.old.items ++ (word.now ++ signed_decimal number)) }
    ensures begins { (rest : List ℕ) × (out.new.items ≡ out.old.items ++ rest) }
{
    out.extend_from_slice(word.as_bytes())?;
    push_int(out, number)
}

/// A stream's number and a call of it.
pub fn push_stream(out: &mut Vec<u8>, stream: u32, call: Streamed) -> Result<(), NoMemory>
    ensures ok { OnOk result (out.new.items ≡ out.old.items ++ (codes "s " ++ (decimal stream ++ (32 ∷ printed_stream call)))) }
    ensures begins { (rest : List ℕ) × (out.new.items ≡ out.old.items ++ rest) }
{
    push_numbered(out, "s ", stream)?;
    out.push(b' ')?;
    push_streamed(out, call)
}

fn push_streamed(out: &mut Vec<u8>, call: Streamed) -> Result<(), NoMemory>
    ensures ok { OnOk result (out.new.items ≡ out.old.items ++ printed_stream call) }
    ensures begins { (rest : List ℕ) × (out.new.items ≡ out.old.items ++ rest) }
{
    match call {
        Streamed::New(number) => push_signed(out, "new ", number),
        Streamed::Ready(number) => push_signed(out, "ready ", number),
        Streamed::Write {
            offset,
            length,
            taken,
        } => push_write(out, offset, length, taken),
        Streamed::File => push_word(out, "file"),
        Streamed::Destroy(reason) => push_numbered(out, "destroy ", u32::from(reason.code())),
        Streamed::Notify(reason) => push_numbered(out, "notify ", u32::from(reason.code())),
    }
}

fn push_write(out: &mut Vec<u8>, offset: u32, length: u32, taken: i32) -> Result<(), NoMemory>
    ensures ok { OnOk result (out.new.items ≡ out.old.items ++ printed_stream (Write offset length taken)) }
    ensures begins { (rest : List ℕ) × (out.new.items ≡ out.old.items ++ rest) }
{
    push_numbered(out, "write ", offset)?;
    push_numbered(out, " ", length)?;
    push_signed(out, " ", taken)
}

/// A command's number and its result.
pub fn push_result(out: &mut Vec<u8>, command: u32, said: &Printed) -> Result<(), NoMemory>
    ensures ok { OnOk result (out.new.items ≡ out.old.items ++ (decimal command ++ (codes ": " ++ printed_result said.now))) }
    ensures begins { (rest : List ℕ) × (out.new.items ≡ out.old.items ++ rest) }
{
    push_number(out, u64::from(command))?;
    out.extend_from_slice(": ".as_bytes())?;
    push_printed(out, said)
}

fn push_printed(out: &mut Vec<u8>, said: &Printed) -> Result<(), NoMemory>
    ensures ok { OnOk result (out.new.items ≡ out.old.items ++ printed_result said.now) }
    ensures begins { (rest : List ℕ) × (out.new.items ≡ out.old.items ++ rest) }
{
    match said {
        Printed::Code(error) => push_numbered(out, "error ", u32::from(error.code())),
        Printed::Yes(value, dead) => push_value(out, "true ", value, *dead),
        Printed::No => push_word(out, "false"),
        Printed::Threw(text) => {
            out.extend_from_slice("threw ".as_bytes())?;
            push_quoted(out, text.as_str().as_bytes())
        }
        Printed::Ids(keys) => push_keys(out, keys.as_slice()),
        Printed::Pumped(number) => push_numbered(out, "pumped ", *number),
    }
}

fn push_keys(out: &mut Vec<u8>, keys: &[IdKey]) -> Result<(), NoMemory>
    ensures ok { OnOk result (out.new.items ≡ out.old.items ++ (codes "ids" ++ flat_map spaced_key keys.now)) }
    ensures begins { (rest : List ℕ) × (out.new.items ≡ out.old.items ++ rest) }
{
    out.extend_from_slice("ids".as_bytes())?;
    for key in keys {
        push_keyed(out, " ", key)?;
    }
    Ok(())
}
