// The fields of a line, which stand behind bars, and the texts that they write: `\n` is a line feed, and `\r` a carriage
// return.

use crate::fault::CaseFault;
use lk_val::{Bytes, Items};
use std::alloc::Global;

/// What stands in front of a bar, and what behind it.
pub fn parted<'a>(line: &'a str, bar: &str) -> (&'a str, &'a str) {
    match line.split_once(bar) {
        Some(parts) => parts,
        None => (line, ""),
    }
}

/// The bytes of a text.
pub fn bytes_of(alloc: Global, text: &str) -> Result<Bytes, CaseFault> {
    let text = text.replace(alloc, "\\r", "\r")?;
    let text = text.as_str().replace(alloc, "\\n", "\n")?;
    Ok(Bytes::from_slice(alloc, text.as_str().as_bytes())?)
}

/// The numbers in the fields `FRONT 3 fails`.
pub fn failing(alloc: Global, fields: &str, front: &str) -> Result<Items<u64>, CaseFault> {
    let mut numbers = Items::new(alloc);
    for field in fields.split(" | ") {
        if let Some(number) = number_of(field, front, " fails") {
            numbers.push(number)?;
        }
    }
    Ok(numbers)
}

/// The number in the first field that begins and ends so, if there is one.
pub fn number_in(fields: &str, front: &str, end: &str) -> Option<u64> {
    for field in fields.split(" | ") {
        if let Some(number) = number_of(field, front, end) {
            return Some(number);
        }
    }
    None
}

fn number_of(field: &str, front: &str, end: &str) -> Option<u64> {
    let number = field.strip_prefix(front)?.strip_suffix(end)?;
    number.parse::<u64>().ok()
}
