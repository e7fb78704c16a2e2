//! The messages that are measured, by their bytes.

ghost use Rattle.std.specs.Prelude.{◌≡◌, length, IfOk};

use np_values::NoMemory;
use std::alloc::Global;

/// A call of a string identifier with one double.
pub fn small(alloc: Global) -> Result<Vec<u8>, NoMemory>
    ensures size { IfOk result (λ bytes. length bytes.items ≡ 31) }
{
    let mut bytes = Vec::new(alloc);
    bytes.extend_from_slice(
        b"\0\0\0\x1b\x40\x01\0\0\x01\0\0\0\x01\x01\0\0\x04echo\x01\x04\x7f\xf8\0\0\0\0\0\x01",
    )?;
    Ok(bytes)
}

/// The largest message: a call with 1,024 releases, an identifier of 256 bytes and eight texts of 2,048.
pub fn largest(alloc: Global) -> Result<Vec<u8>, NoMemory>
    ensures size { IfOk result (λ bytes. length bytes.items ≡ 25898) }
{
    let mut bytes = Vec::new(alloc);
    bytes.extend_from_slice(b"\0\0\x65\x26\x40\x01\x04\0")?;
    for serial in 1..1025u32 {
        bytes.push(1)?;
        bytes.extend_from_slice(&serial.to_be_bytes())?;
        bytes.extend_from_slice(&[0, 0, 0, 1])?;
    }
    bytes.extend_from_slice(b"\x01\0\0\0\x01\x01\0\x01\0")?;
    bytes.extend_from_slice(&[b'a'; 256])?;
    bytes.push(8)?;
    for _ in 0..8u32 {
        bytes.extend_from_slice(&[5, 8, 0])?;
        bytes.extend_from_slice(&[b'a'; 2048])?;
    }
    Ok(bytes)
}
