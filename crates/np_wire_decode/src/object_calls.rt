//! Readers of the calls of objects and of the replies.

ghost use Rattle.std.specs.Prelude.{◌≡◌};
ghost use Rattle.np_message.specs.declared.payload.Payload.TheVariants.{Call as of_call};
ghost use Rattle.np_message.specs.Formats.{op_format, call_format, true_format, threw_format, idents_format, code_format, number_format};
ghost use Rattle.np_message.specs.Decoding.{read};
ghost use Rattle.np_wire_decode.specs.Reading.{Gives, WantsMemoryOnly, read_one_value};

use crate::items::{byte, code, int, number, text};
use crate::lists::{idents, values};
use crate::unread::Unread;
use crate::values::{ident, value};
use np_idents::Op;
use np_message::Payload;
use np_values::Values;
use std::alloc::Global;

// The call of this operation with these arguments.
fn call_of(instance: u8, serial: u32, op: Op, arguments: Values) -> Payload
    ensures { result ≡ of_call instance serial op arguments }
{
    Payload::Call {
        instance,
        serial,
        op,
        arguments,
    }
}

// The one value of a Put.
fn one_value(alloc: Global, bytes: &[u8]) -> Result<(Values, &[u8]), Unread>
    ensures exact { Gives (λ x. (x.0, x.1.now)) result (read_one_value bytes.now) }
{
    let (value, rest) = value(alloc, bytes)?;
    let mut one = Values::new(alloc);
    one.push(value)?;
    Ok((one, rest))
}

// NPClass::invoke: an identifier and at most 8 arguments.
#[tactic(auto, unfolding(np_message::specs::Formats::op_format), using(crate::proofs::ReadLists::many_read))]
fn invoke(
    alloc: Global,
    instance: u8,
    serial: u32,
    bytes: &[u8],
) -> Result<(Payload, &[u8]), Unread>
    ensures exact { Gives (λ x. (x.0, x.1.now)) result (read (op_format (of_call instance serial) 1) bytes.now) }
{
    let (key, rest) = ident(alloc, bytes)?;
    let (count, rest) = byte(0, 8, rest)?;
    let (arguments, rest) = values(alloc, count, rest)?;
    Ok((call_of(instance, serial, Op::Invoke(key), arguments), rest))
}

// NPClass::invokeDefault: at most 8 arguments.
#[tactic(auto, unfolding(np_message::specs::Formats::op_format), using(crate::proofs::ReadLists::many_read))]
fn invoke_default(
    alloc: Global,
    instance: u8,
    serial: u32,
    bytes: &[u8],
) -> Result<(Payload, &[u8]), Unread>
    ensures exact { Gives (λ x. (x.0, x.1.now)) result (read (op_format (of_call instance serial) 2) bytes.now) }
{
    let (count, rest) = byte(0, 8, bytes)?;
    let (arguments, rest) = values(alloc, count, rest)?;
    Ok((call_of(instance, serial, Op::Default, arguments), rest))
}

// NPClass::construct: at most 8 arguments.
#[tactic(auto, unfolding(np_message::specs::Formats::op_format), using(crate::proofs::ReadLists::many_read))]
fn construct(
    alloc: Global,
    instance: u8,
    serial: u32,
    bytes: &[u8],
) -> Result<(Payload, &[u8]), Unread>
    ensures exact { Gives (λ x. (x.0, x.1.now)) result (read (op_format (of_call instance serial) 3) bytes.now) }
{
    let (count, rest) = byte(0, 8, bytes)?;
    let (arguments, rest) = values(alloc, count, rest)?;
    Ok((call_of(instance, serial, Op::Construct, arguments), rest))
}

// NPClass::getProperty: an identifier.
#[tactic(auto, unfolding(np_message::specs::Formats::op_format))]
fn get_property(
    alloc: Global,
    instance: u8,
    serial: u32,
    bytes: &[u8],
) -> Result<(Payload, &[u8]), Unread>
    ensures exact { Gives (λ x. (x.0, x.1.now)) result (read (op_format (of_call instance serial) 4) bytes.now) }
{
    let (key, rest) = ident(alloc, bytes)?;
    let call = call_of(instance, serial, Op::Get(key), Values::new(alloc));
    Ok((call, rest))
}

// NPClass::setProperty: an identifier and a value.
#[tactic(auto, unfolding(np_message::specs::Formats::op_format))]
fn set_property(
    alloc: Global,
    instance: u8,
    serial: u32,
    bytes: &[u8],
) -> Result<(Payload, &[u8]), Unread>
    ensures exact { Gives (λ x. (x.0, x.1.now)) result (read (op_format (of_call instance serial) 5) bytes.now) }
{
    let (key, rest) = ident(alloc, bytes)?;
    let (one, rest) = one_value(alloc, rest)?;
    Ok((call_of(instance, serial, Op::Put(key), one), rest))
}

// NPClass::removeProperty: an identifier.
#[tactic(auto, unfolding(np_message::specs::Formats::op_format))]
fn remove_property(
    alloc: Global,
    instance: u8,
    serial: u32,
    bytes: &[u8],
) -> Result<(Payload, &[u8]), Unread>
    ensures exact { Gives (λ x. (x.0, x.1.now)) result (read (op_format (of_call instance serial) 6) bytes.now) }
{
    let (key, rest) = ident(alloc, bytes)?;
    let call = call_of(instance, serial, Op::Remove(key), Values::new(alloc));
    Ok((call, rest))
}

// NPClass::hasMethod: an identifier.
#[tactic(auto, unfolding(np_message::specs::Formats::op_format))]
fn has_method(
    alloc: Global,
    instance: u8,
    serial: u32,
    bytes: &[u8],
) -> Result<(Payload, &[u8]), Unread>
    ensures exact { Gives (λ x. (x.0, x.1.now)) result (read (op_format (of_call instance serial) 7) bytes.now) }
{
    let (key, rest) = ident(alloc, bytes)?;
    let call = call_of(instance, serial, Op::HasMethod(key), Values::new(alloc));
    Ok((call, rest))
}

// NPClass::hasProperty: an identifier.
#[tactic(auto, unfolding(np_message::specs::Formats::op_format))]
fn has_property(
    alloc: Global,
    instance: u8,
    serial: u32,
    bytes: &[u8],
) -> Result<(Payload, &[u8]), Unread>
    ensures exact { Gives (λ x. (x.0, x.1.now)) result (read (op_format (of_call instance serial) 8) bytes.now) }
{
    let (key, rest) = ident(alloc, bytes)?;
    let call = call_of(instance, serial, Op::HasProperty(key), Values::new(alloc));
    Ok((call, rest))
}

// The identifier and the arguments of the operation with this number.
#[tactic(auto, unfolding(np_message::specs::Formats::op_format))]
fn operation(
    alloc: Global,
    instance: u8,
    serial: u32,
    code: u8,
    bytes: &[u8],
) -> Result<(Payload, &[u8]), Unread>
    ensures exact { Gives (λ x. (x.0, x.1.now)) result (read (op_format (of_call instance serial) code) bytes.now) }
{
    match code {
        1 => invoke(alloc, instance, serial, bytes),
        2 => invoke_default(alloc, instance, serial, bytes),
        3 => construct(alloc, instance, serial, bytes),
        4 => get_property(alloc, instance, serial, bytes),
        5 => set_property(alloc, instance, serial, bytes),
        6 => remove_property(alloc, instance, serial, bytes),
        7 => has_method(alloc, instance, serial, bytes),
        8 => has_property(alloc, instance, serial, bytes),
        _ => {
            let call = call_of(instance, serial, Op::Enumerate, Values::new(alloc));
            Ok((call, bytes))
        }
    }
}

/// Reads a call of an object.
pub fn call(alloc: Global, bytes: &[u8]) -> Result<(Payload, &[u8]), Unread>
    ensures exact { Gives (λ x. (x.0, x.1.now)) result (read call_format bytes.now) }
{
    let (instance, rest) = byte(1, 255, bytes)?;
    let (serial, rest) = number(1, rest)?;
    let (code, rest) = byte(1, 9, rest)?;
    operation(alloc, instance, serial, code, rest)
}

/// Reads the reply with a result.
pub fn true_reply(alloc: Global, bytes: &[u8]) -> Result<(Payload, &[u8]), Unread>
    ensures exact { Gives (λ x. (x.0, x.1.now)) result (read true_format bytes.now) }
{
    let (value, rest) = value(alloc, bytes)?;
    Ok((Payload::True(value), rest))
}

/// Reads the reply with an exception.
pub fn threw(alloc: Global, bytes: &[u8]) -> Result<(Payload, &[u8]), Unread>
    ensures exact { Gives (λ x. (x.0, x.1.now)) result (read threw_format bytes.now) }
{
    let (text, rest) = text(alloc, bytes)?;
    Ok((Payload::Threw(text), rest))
}

/// The reply with identifiers.
#[tactic(auto, using(crate::proofs::ReadLists::many_read))]
pub fn idents_reply(alloc: Global, bytes: &[u8]) -> Result<(Payload, &[u8]), Unread>
    ensures exact { Gives (λ x. (x.0, x.1.now)) result (read idents_format bytes.now) }
{
    let (count, rest) = byte(0, 64, bytes)?;
    let (keys, rest) = idents(alloc, count, rest)?;
    Ok((Payload::Idents(keys), rest))
}

/// Reads the reply with an error code.
pub fn code_reply(bytes: &[u8]) -> Result<(Payload, &[u8]), Unread>
    ensures exact { Gives (λ x. (x.0, x.1.now)) result (read code_format bytes.now) }
    ensures sure { WantsMemoryOnly ⊥ result }
{
    let (error, rest) = code(bytes)?;
    Ok((Payload::Code(error), rest))
}

/// Reads the reply with a number.
pub fn number_reply(bytes: &[u8]) -> Result<(Payload, &[u8]), Unread>
    ensures exact { Gives (λ x. (x.0, x.1.now)) result (read number_format bytes.now) }
    ensures sure { WantsMemoryOnly ⊥ result }
{
    let (number, rest) = int(bytes)?;
    Ok((Payload::Number(number), rest))
}
