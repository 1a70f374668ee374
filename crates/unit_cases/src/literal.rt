use crate::fault::CaseFault;
use lk_types::{Piece, Shape, print_cell};
use lk_val::{Cell, Value, as_text};
use std::alloc::Global;

/// A value as a literal of SQL.
pub fn literal(alloc: Global, value: &Value) -> Result<String, CaseFault> {
    match value {
        Value::Null => Ok(String::from_str(alloc, "NULL")?),
        Value::Truth(true) => Ok(String::from_str(alloc, "TRUE")?),
        Value::Truth(false) => Ok(String::from_str(alloc, "FALSE")?),
        Value::Num(num) => Ok(num.print(alloc)?.into_string()),
        Value::Text(text) => quoted(alloc, text.as_bytes()),
        Value::Day(_) => dated(alloc, "DATE", value),
        Value::Moment(_) => dated(alloc, "TIMESTAMP", value),
    }
}

// A day or moment behind its word.
fn dated(alloc: Global, word: &str, value: &Value) -> Result<String, CaseFault> {
    let cell = Cell::Value(value.copy(alloc)?);
    let text = print_cell(alloc, &cell, &Shape::Plain)?;
    let text = text.as_str();
    Ok(format!(in alloc; "{word} '{text}'")?)
}

/// A pattern in quotes: what stands for itself is quoted by `^` where it would stand for another.
pub fn pattern(alloc: Global, pieces: &[Piece]) -> Result<String, CaseFault> {
    let mut bytes = Vec::new(alloc);
    for piece in pieces {
        match piece {
            Piece::Any => bytes.push(b'%')?,
            Piece::One => bytes.push(b'_')?,
            Piece::Byte(byte) => {
                if *byte == b'%' || *byte == b'_' || *byte == b'^' {
                    bytes.push(b'^')?;
                }
                bytes.push(*byte)?;
            }
        }
    }
    quoted(alloc, bytes.as_slice())
}

// A text in quotes, each quote in it doubled.
fn quoted(alloc: Global, bytes: &[u8]) -> Result<String, CaseFault> {
    let text = as_text(bytes).ok_or(CaseFault::NoSuchCase)?;
    let doubled = text.replace(alloc, "'", "''")?;
    let doubled = doubled.as_str();
    Ok(format!(in alloc; "'{doubled}'")?)
}
