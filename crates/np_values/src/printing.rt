//! How texts, numbers and names are printed. After an error the output is as it was.
ghost use Rattle.std.specs.Prelude.{◌≡◌, ◌/◌, ◌%◌, ◌<◌, ◌++◌, List, ℕ, take, length, OnOk, OnErr};
ghost use Rattle.std.specs.Char.{digit_char};
ghost use Rattle.std.specs.Fmt.{decimal, signed_decimal};
ghost use Rattle.std.specs.List.{flat_map};
ghost use Rattle.np_values.specs.Quoted.{hex_byte, quoted_byte, quoted};
ghost use Rattle.np_values.specs.Value.{printed_name};

use crate::{Name, NoMemory, Side};
use itoa::Buffer;

/// A digit of base 16, in lower case.
fn hex_digit(digit: u8) -> u8
    requires { digit < 16 }
    ensures value { result ≡ digit_char digit }
{
    if digit < 10 {
        b'0' + digit
    } else {
        b'a' + (digit - 10)
    }
}

/// Appends a text as it is, without quotes or escapes. An `Err` means that memory ran out.
pub fn push_str(out: &mut Vec<u8>, text: &str) -> Result<(), NoMemory>
    ensures ok { OnOk result (out.new.items ≡ out.old.items ++ text.now) }
    ensures err { OnErr result (out.new.items ≡ out.old.items) }
{
    out.extend_from_slice(text.as_bytes())?;
    Ok(())
}

// The bytes in hexadecimal digits. Where memory runs out, a part of them may stand.
/// Appends two lower-case digits in base 16 for each byte. An `Err` means that memory ran out.
pub fn push_hex(out: &mut Vec<u8>, bytes: &[u8]) -> Result<(), NoMemory>
    ensures ok { OnOk result (out.new.items ≡ out.old.items ++ flat_map hex_byte bytes.now) }
    ensures begins { (rest : List ℕ) × (out.new.items ≡ out.old.items ++ rest) }
{
    for byte in bytes {
        out.extend_from_slice(&[hex_digit(*byte / 16), hex_digit(*byte % 16)])?;
    }
    Ok(())
}

fn push_quoted_byte(out: &mut Vec<u8>, byte: u8) -> Result<(), NoMemory>
    ensures ok { OnOk result (out.new.items ≡ out.old.items ++ quoted_byte byte) }
    ensures err { OnErr result (out.new.items ≡ out.old.items) }
{
    if byte == b'"' || byte == b'\\' {
        out.extend_from_slice(&[b'\\', byte])?;
        return Ok(());
    }
    if byte < 32 || byte == 127 {
        let digits = [b'\\', b'x', hex_digit(byte / 16), hex_digit(byte % 16)];
        out.extend_from_slice(&digits)?;
        return Ok(());
    }
    out.push(byte)?;
    Ok(())
}

// The bytes between the quotes. Where memory runs out, a part of them may stand.
fn push_quoted_bytes(out: &mut Vec<u8>, text: &[u8]) -> Result<(), NoMemory>
    ensures ok { OnOk result (out.new.items ≡ out.old.items ++ flat_map quoted_byte text.now) }
    ensures begins { (rest : List ℕ) × (out.new.items ≡ out.old.items ++ rest) }
{
    for byte in text {
        push_quoted_byte(out, *byte)?;
    }
    Ok(())
}

fn push_between_quotes(out: &mut Vec<u8>, text: &[u8]) -> Result<(), NoMemory>
    ensures ok { OnOk result (out.new.items ≡ out.old.items ++ quoted text.now) }
    ensures begins { (rest : List ℕ) × (out.new.items ≡ out.old.items ++ rest) }
{
    out.push(b'"')?;
    push_quoted_bytes(out, text)?;
    out.push(b'"')?;
    Ok(())
}

/// Appends these bytes as a quoted text: `\"` and `\\` are escaped, bytes below 32 and 127 are `\x` and two
/// digits. An `Err` means that memory ran out. (This project's own.)
pub fn push_quoted(out: &mut Vec<u8>, text: &[u8]) -> Result<(), NoMemory>
    ensures ok { OnOk result (out.new.items ≡ out.old.items ++ quoted text.now) }
    ensures err { OnErr result (out.new.items ≡ out.old.items) }
{
    let length = out.len();
    match push_between_quotes(out, text) {
        Ok(()) => Ok(()),
        Err(NoMemory) => {
            out.truncate(length);
            Err(NoMemory)
        }
    }
}

/// Appends a number in base 10, without leading zeros. An `Err` means that memory ran out.
pub fn push_number(out: &mut Vec<u8>, number: u64) -> Result<(), NoMemory>
    ensures ok { OnOk result (out.new.items ≡ out.old.items ++ decimal number) }
    ensures err { OnErr result (out.new.items ≡ out.old.items) }
{
    let mut buffer = Buffer::new();
    out.extend_from_slice(buffer.format(number).as_bytes())?;
    Ok(())
}

/// Appends a number in base 10, with a `-` where it is below zero. An `Err` means that memory ran out.
pub fn push_int(out: &mut Vec<u8>, number: i32) -> Result<(), NoMemory>
    ensures ok { OnOk result (out.new.items ≡ out.old.items ++ signed_decimal number) }
    ensures err { OnErr result (out.new.items ≡ out.old.items) }
{
    let mut buffer = Buffer::new();
    out.extend_from_slice(buffer.format(number).as_bytes())?;
    Ok(())
}

// The name. Where memory runs out, a part of it may stand.
fn push_name_parts(out: &mut Vec<u8>, name: Name) -> Result<(), NoMemory>
    ensures ok { OnOk result (out.new.items ≡ out.old.items ++ printed_name name) }
    ensures begins { (rest : List ℕ) × (out.new.items ≡ out.old.items ++ rest) }
{
    push_str(
        out,
        match name.side {
            Side::Page => "page:",
            Side::Plug => "plug:",
        },
    )?;
    push_number(out, u64::from(name.instance))?;
    push_str(out, ":")?;
    push_number(out, u64::from(name.serial))
}

/// Appends a name as scripts and journals print it: `page:I:S` or `plug:I:S`. An `Err` means that memory ran
/// out. (This project's own.)
pub fn push_name(out: &mut Vec<u8>, name: Name) -> Result<(), NoMemory>
    ensures ok { OnOk result (out.new.items ≡ out.old.items ++ printed_name name) }
    ensures err { OnErr result (out.new.items ≡ out.old.items) }
{
    let length = out.len();
    match push_name_parts(out, name) {
        Ok(()) => Ok(()),
        Err(NoMemory) => {
            out.truncate(length);
            Err(NoMemory)
        }
    }
}
