//! How many bytes items have.

ghost use Rattle.std.specs.Prelude.{◌≡◌, ◌*◌, ◌≤◌, length};
ghost use Rattle.std.specs.List.{flat_map};
ghost use Rattle.np_message.specs.Encoding.{counted_item, ident_item, value_item, items_of, op_items};
ghost use Rattle.np_message.specs.Rules.{KeepsKind, HasArguments};

use np_idents::{IdKey, Op};
use np_message::Payload;
use np_values::{Text, Value};

fn text_len(text: &Text) -> u32
    ensures value { result ≡ length (counted_item text.now) }
    ensures bound { result ≤ 2050 }
{
    2 + text.as_str().len() as u32
}

fn texts_len(texts: &[Text]) -> u32
    requires { length texts.now ≤ 64 }
    ensures value { result ≡ length (flat_map counted_item texts.now) }
    ensures bound { result ≤ 2050 * length texts.now }
{
    let mut len = 0;
    for text in texts {
        len += text_len(text);
    }
    len
}

fn ident_len(key: &IdKey) -> u32
    ensures value { result ≡ length (ident_item key.now) }
    ensures bound { result ≤ 259 }
{
    match key {
        IdKey::Str(text) => 3 + text.as_str().len() as u32,
        IdKey::Int(_) => 5,
    }
}

fn idents_len(keys: &[IdKey]) -> u32
    requires { length keys.now ≤ 64 }
    ensures value { result ≡ length (flat_map ident_item keys.now) }
    ensures bound { result ≤ 259 * length keys.now }
{
    let mut len = 0;
    for key in keys {
        len += ident_len(key);
    }
    len
}

// How many bytes these are.
fn bytes_len(bytes: &[u8]) -> u32
    requires { length bytes.now ≤ 8192 }
    ensures { result ≡ length bytes.now }
{
    bytes.len() as u32
}

fn value_len(value: &Value) -> u32
    ensures value { result ≡ length (value_item value.now) }
    ensures bound { result ≤ 2051 }
{
    match value {
        Value::Void | Value::Null => 1,
        Value::Bool(_) => 2,
        Value::Int(_) => 5,
        Value::Double(bytes) => 1 + bytes_len(bytes),
        Value::Text(text) => 1 + text_len(text),
        Value::Object(_) => 7,
    }
}

fn values_len(values: &[Value]) -> u32
    requires { length values.now ≤ 64 }
    ensures value { result ≡ length (flat_map value_item values.now) }
    ensures bound { result ≤ 2051 * length values.now }
{
    let mut len = 0;
    for value in values {
        len += value_len(value);
    }
    len
}

// The identifier and the arguments of an operation.
fn op_len(op: &Op, arguments: &[Value]) -> u32
    requires { HasArguments op.now (length arguments.now) }
    ensures value { result ≡ length (op_items op.now arguments.now) }
    ensures bound { result ≤ 16668 }
{
    match op {
        Op::Invoke(key) => ident_len(key) + 1 + values_len(arguments),
        Op::Default | Op::Construct => 1 + values_len(arguments),
        Op::Put(key) => ident_len(key) + values_len(arguments),
        Op::Get(key) | Op::Remove(key) | Op::HasMethod(key) | Op::HasProperty(key) => {
            ident_len(key)
        }
        Op::Enumerate => 0,
    }
}

/// How many bytes the items of the kind have.
#[tactic(auto, using(crate::proofs::Sizes::ranges_length))]
pub fn items_len(body: &Payload) -> u32
    requires { KeepsKind body.now }
    ensures value { result ≡ length (items_of body.now) }
    ensures bound { result ≤ 20000 }
{
    match body {
        Payload::Turn | Payload::Shutdown | Payload::False | Payload::Done => 0,
        Payload::Destroy { .. }
        | Payload::Scriptable { .. }
        | Payload::Window { .. }
        | Payload::Code(_) => 1,
        Payload::Hello { .. } => 3,
        Payload::Number(_) => 4,
        Payload::WriteReady { .. } => 5,
        Payload::DestroyStream { .. } | Payload::EndStream { .. } => 6,
        Payload::New {
            mime,
            attributes,
            ..
        } => 3 + text_len(mime) + texts_len(attributes.as_slice()),
        Payload::NewStream { url, mime, .. } => 9 + text_len(url) + text_len(mime),
        Payload::Write { bytes, .. } => 11 + bytes.len() as u32,
        Payload::AsFile { path, .. } => 5 + text_len(path),
        Payload::Notify { url, .. } => 6 + text_len(url),
        Payload::GetUrl { url, .. } => 5 + text_len(url),
        Payload::RequestRead { ranges, .. } => 6 + 8 * ranges.len() as u32,
        Payload::Call { op, arguments, .. } => 6 + op_len(op, arguments.as_slice()),
        Payload::True(value) => value_len(value),
        Payload::Threw(text) => text_len(text),
        Payload::Idents(keys) => 1 + idents_len(keys.as_slice()),
    }
}
