// Bytes as a line writes them: `\n`, `\r`, `\t` and `\xff` stand for one byte.

ghost use Rattle.std.specs.Prelude.{◌<◌, IfOk};

use crate::fault::CaseFault;
use crate::lists::Listed;
use lk_val::Bytes;
use std::alloc::Global;

impl Listed for Bytes {
    fn read(alloc: Global, text: &str) -> Result<Bytes, CaseFault> {
        written(alloc, text)
    }
}

/// The bytes that a text stands for.
pub fn written(alloc: Global, text: &str) -> Result<Bytes, CaseFault> {
    let mut bytes = Bytes::new(alloc);
    append_written(&mut bytes, text)?;
    Ok(bytes)
}

/// The bytes of fields that bars part, of which the second stands so many times.
pub fn repeated(alloc: Global, count: &str, fields: &str) -> Result<Bytes, CaseFault> {
    let count = count.parse::<u32>().or(Err(CaseFault::NoSuchCase))?;
    let mut bytes = Bytes::new(alloc);
    append_repeated(&mut bytes, count, fields)?;
    Ok(bytes)
}

fn append_repeated(bytes: &mut Bytes, count: u32, fields: &str) -> Result<(), CaseFault> {
    for (place, field) in fields.split(" | ").enumerate() {
        for _ in 0..(if place == 1 { count } else { 1 }) {
            append_written(bytes, field)?;
        }
    }
    Ok(())
}

fn append_written(bytes: &mut Bytes, text: &str) -> Result<(), CaseFault> {
    let mut parts = text.split('\\');
    if let Some(plain) = parts.next() {
        bytes.append(plain.as_bytes())?;
    }
    for part in parts {
        append_escaped(bytes, part.as_bytes())?;
    }
    Ok(())
}

// What stands behind a backslash: one byte, and plain ones behind it.
fn append_escaped(bytes: &mut Bytes, part: &[u8]) -> Result<(), CaseFault> {
    let (byte, plain) = escaped(part)?;
    bytes.append(&[byte])?;
    Ok(bytes.append(plain)?)
}

fn escaped(part: &[u8]) -> Result<(u8, &[u8]), CaseFault> {
    match part {
        [b'n', rest @ ..] => Ok((b'\n', rest)),
        [b'r', rest @ ..] => Ok((b'\r', rest)),
        [b't', rest @ ..] => Ok((b'\t', rest)),
        [b'x', high, low, rest @ ..] => Ok((16 * digit(*high)? + digit(*low)?, rest)),
        _ => Err(CaseFault::NoSuchCase),
    }
}

// The value of a hexadecimal digit.
fn digit(byte: u8) -> Result<u8, CaseFault>
    ensures { IfOk result (λ value. value < 16) }
{
    match byte {
        b'0'..=b'9' => Ok(byte - b'0'),
        b'a'..=b'f' => Ok(byte - b'a' + 10),
        _ => Err(CaseFault::NoSuchCase),
    }
}
