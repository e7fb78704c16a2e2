//! The items of each kind, appended to bytes.

ghost use Rattle.std.specs.Prelude.{◌≡◌, ◌≤◌, ◌∷◌, ◌++◌, length, OnOk};
ghost use Rattle.np_message.specs.Encoding.{number_item, arguments_items, op_items, items_of, op_code as code_of_op};
ghost use Rattle.np_message.specs.declared.payload.Payload.TheVariants.{New, NewStream, Write, AsFile, DestroyStream, Notify, GetUrl, RequestRead, Idents, Call};
ghost use Rattle.np_message.specs.Rules.{KeepsKind, HasArguments};
ghost use Rattle.np_wire_encode.specs.Writing.{Extends};

use crate::items::{
    push_counted, push_ident, push_idents, push_int, push_number, push_ranges, push_text,
    push_texts, push_value, push_values,
};
use np_idents::{IdKey, Op};
use np_message::Payload;
use np_values::{NoMemory, NpReason, Range, Text, Value};

fn op_code(op: &Op) -> u8
    ensures { result ≡ code_of_op op.now }
{
    match op {
        Op::Invoke(_) => 1,
        Op::Default => 2,
        Op::Construct => 3,
        Op::Get(_) => 4,
        Op::Put(_) => 5,
        Op::Remove(_) => 6,
        Op::HasMethod(_) => 7,
        Op::HasProperty(_) => 8,
        Op::Enumerate => 9,
    }
}

// Arguments after their number.
fn push_arguments(out: &mut Vec<u8>, arguments: &[Value]) -> Result<(), NoMemory>
    requires { length arguments.now ≤ 8 }
    ensures ok { OnOk result (out.new.items ≡ out.old.items ++ arguments_items arguments.now) }
    ensures kept { Extends out.old.items out.new.items }
{
    out.push(arguments.len() as u8)?;
    push_values(out, arguments)
}

// The identifier and the arguments of an operation.
fn push_op(out: &mut Vec<u8>, op: &Op, arguments: &[Value]) -> Result<(), NoMemory>
    requires { HasArguments op.now (length arguments.now) }
    ensures ok { OnOk result (out.new.items ≡ out.old.items ++ op_items op.now arguments.now) }
    ensures kept { Extends out.old.items out.new.items }
{
    match op {
        Op::Invoke(key) => {
            push_ident(out, key)?;
            push_arguments(out, arguments)
        }
        Op::Default | Op::Construct => push_arguments(out, arguments),
        Op::Put(key) => {
            push_ident(out, key)?;
            push_values(out, arguments)
        }
        Op::Get(key) | Op::Remove(key) | Op::HasMethod(key) | Op::HasProperty(key) => {
            push_ident(out, key)
        }
        Op::Enumerate => Ok(()),
    }
}

// An instance and a stream.
fn push_stream(out: &mut Vec<u8>, instance: u8, stream: u32) -> Result<(), NoMemory>
    ensures ok { OnOk result (out.new.items ≡ out.old.items ++ instance ∷ number_item stream) }
    ensures kept { Extends out.old.items out.new.items }
{
    out.push(instance)?;
    push_number(out, stream)
}

// The items of NPP_New.
fn push_new(
    out: &mut Vec<u8>,
    instance: u8,
    mode: u8,
    mime: &Text,
    attributes: &[Text],
) -> Result<(), NoMemory>
    requires { length attributes.now ≤ 6 }
    ensures ok { OnOk result (out.new.items ≡ out.old.items ++ items_of (New instance mode mime.now attributes.now)) }
    ensures kept { Extends out.old.items out.new.items }
{
    out.extend_from_slice(&[instance, mode])?;
    push_text(out, mime)?;
    out.push((attributes.len() / 2) as u8)?;
    push_texts(out, attributes)
}

// The items of NPP_NewStream.
fn push_new_stream(
    out: &mut Vec<u8>,
    instance: u8,
    stream: u32,
    url: &Text,
    mime: &Text,
    length: u32,
) -> Result<(), NoMemory>
    ensures ok { OnOk result (out.new.items ≡ out.old.items ++ items_of (NewStream instance stream url.now mime.now length)) }
    ensures kept { Extends out.old.items out.new.items }
{
    push_stream(out, instance, stream)?;
    push_text(out, url)?;
    push_text(out, mime)?;
    push_number(out, length)
}

// The items of NPP_Write.
fn push_write(
    out: &mut Vec<u8>,
    instance: u8,
    stream: u32,
    offset: u32,
    bytes: &[u8],
) -> Result<(), NoMemory>
    requires { length bytes.now ≤ 8192 }
    ensures ok { OnOk result (out.new.items ≡ out.old.items ++ items_of (Write instance stream offset bytes.now)) }
    ensures kept { Extends out.old.items out.new.items }
{
    push_stream(out, instance, stream)?;
    push_number(out, offset)?;
    push_counted(out, bytes)?;
    Ok(())
}

// The items of NPP_StreamAsFile.
fn push_as_file(out: &mut Vec<u8>, instance: u8, stream: u32, path: &Text) -> Result<(), NoMemory>
    ensures ok { OnOk result (out.new.items ≡ out.old.items ++ items_of (AsFile instance stream path.now)) }
    ensures kept { Extends out.old.items out.new.items }
{
    push_stream(out, instance, stream)?;
    push_text(out, path)
}

// The items of NPP_DestroyStream, and of NPN_DestroyStream.
fn push_stream_end(
    out: &mut Vec<u8>,
    instance: u8,
    stream: u32,
    reason: NpReason,
) -> Result<(), NoMemory>
    ensures ok { OnOk result (out.new.items ≡ out.old.items ++ items_of (DestroyStream instance stream reason)) }
    ensures kept { Extends out.old.items out.new.items }
{
    push_stream(out, instance, stream)?;
    out.push(reason.code() as u8)?;
    Ok(())
}

// The items of NPP_URLNotify.
fn push_notify(
    out: &mut Vec<u8>,
    instance: u8,
    url: &Text,
    reason: NpReason,
    word: i32,
) -> Result<(), NoMemory>
    ensures ok { OnOk result (out.new.items ≡ out.old.items ++ items_of (Notify instance url.now reason word)) }
    ensures kept { Extends out.old.items out.new.items }
{
    out.push(instance)?;
    push_text(out, url)?;
    out.push(reason.code() as u8)?;
    push_int(out, word)
}

// The items of NPN_GetURLNotify.
fn push_get_url(out: &mut Vec<u8>, instance: u8, url: &Text, word: i32) -> Result<(), NoMemory>
    ensures ok { OnOk result (out.new.items ≡ out.old.items ++ items_of (GetUrl instance url.now word)) }
    ensures kept { Extends out.old.items out.new.items }
{
    out.push(instance)?;
    push_text(out, url)?;
    push_int(out, word)
}

// The items of NPN_RequestRead.
fn push_request_read(
    out: &mut Vec<u8>,
    instance: u8,
    stream: u32,
    ranges: &[Range],
) -> Result<(), NoMemory>
    requires { length ranges.now ≤ 4 }
    ensures ok { OnOk result (out.new.items ≡ out.old.items ++ items_of (RequestRead instance stream ranges.now)) }
    ensures kept { Extends out.old.items out.new.items }
{
    push_stream(out, instance, stream)?;
    out.push(ranges.len() as u8)?;
    push_ranges(out, ranges)
}

// The items of a call of an object.
fn push_call(
    out: &mut Vec<u8>,
    instance: u8,
    serial: u32,
    op: &Op,
    arguments: &[Value],
) -> Result<(), NoMemory>
    requires { HasArguments op.now (length arguments.now) }
    ensures ok { OnOk result (out.new.items ≡ out.old.items ++ items_of (Call instance serial op.now arguments.now)) }
    ensures kept { Extends out.old.items out.new.items }
{
    push_stream(out, instance, serial)?;
    out.push(op_code(op))?;
    push_op(out, op, arguments)
}

// The identifiers of an enumeration.
fn push_keys(out: &mut Vec<u8>, keys: &[IdKey]) -> Result<(), NoMemory>
    requires { length keys.now ≤ 64 }
    ensures ok { OnOk result (out.new.items ≡ out.old.items ++ items_of (Idents keys.now)) }
    ensures kept { Extends out.old.items out.new.items }
{
    out.push(keys.len() as u8)?;
    push_idents(out, keys)
}

/// Appends the items of the kind. An `Err` means that memory ran out; a part of them was appended.
pub fn push_items(out: &mut Vec<u8>, body: &Payload) -> Result<(), NoMemory>
    requires { KeepsKind body.now }
    ensures ok { OnOk result (out.new.items ≡ out.old.items ++ items_of body.now) }
    ensures kept { Extends out.old.items out.new.items }
{
    match body {
        Payload::Hello {
            version,
            major,
            minor,
        } => out.extend_from_slice(&[*version, *major, *minor])?,
        Payload::New {
            instance,
            mode,
            mime,
            attributes,
        } => push_new(out, *instance, *mode, mime, attributes.as_slice())?,
        Payload::Destroy { instance }
        | Payload::Scriptable { instance }
        | Payload::Window { instance } => out.push(*instance)?,
        Payload::NewStream {
            instance,
            stream,
            url,
            mime,
            length,
        } => push_new_stream(out, *instance, *stream, url, mime, *length)?,
        Payload::WriteReady { instance, stream } => push_stream(out, *instance, *stream)?,
        Payload::Write {
            instance,
            stream,
            offset,
            bytes,
        } => push_write(out, *instance, *stream, *offset, bytes.as_slice())?,
        Payload::AsFile {
            instance,
            stream,
            path,
        } => push_as_file(out, *instance, *stream, path)?,
        Payload::DestroyStream {
            instance,
            stream,
            reason,
        }
        | Payload::EndStream {
            instance,
            stream,
            reason,
        } => push_stream_end(out, *instance, *stream, *reason)?,
        Payload::Notify {
            instance,
            url,
            reason,
            word,
        } => push_notify(out, *instance, url, *reason, *word)?,
        Payload::GetUrl {
            instance,
            url,
            word,
        } => push_get_url(out, *instance, url, *word)?,
        Payload::RequestRead {
            instance,
            stream,
            ranges,
        } => push_request_read(out, *instance, *stream, ranges.as_slice())?,
        Payload::Call {
            instance,
            serial,
            op,
            arguments,
        } => push_call(out, *instance, *serial, op, arguments.as_slice())?,
        Payload::True(value) => push_value(out, value)?,
        Payload::Threw(text) => push_text(out, text)?,
        Payload::Idents(keys) => push_keys(out, keys.as_slice())?,
        Payload::Code(error) => out.push(error.code() as u8)?,
        Payload::Number(number) => push_int(out, *number)?,
        Payload::Turn | Payload::Shutdown | Payload::False | Payload::Done => {}
    }
    Ok(())
}
