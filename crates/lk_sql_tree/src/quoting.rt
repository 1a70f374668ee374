ghost use Rattle.std.specs.Prelude.{◌≡◌, ◌++◌, IfOk, OnOk, codes};
ghost use Rattle.lk_types.specs.Printing.{value_text};
ghost use Rattle.lk_sql_tree.specs.Texts.{byte_text, doubled, doubled_byte, literal_text, name_text, pattern_text, piece_text, quoted, quoted_text};

use lk_types::{Piece, Shape, print_cell};
use lk_val::{Bytes, Cell, NoMemory, Text, Value};
use std::alloc::Global;

/// Adds a name in double quotes, with each double quote in it twice. (SQL)
pub(crate) fn append_name(text: &mut Bytes, name: &Text) -> Result<(), NoMemory>
    ensures { OnOk result (text.new ≡ text.old ++ name_text name.now) }
{
    append_quoted(text, b'"', name.as_bytes())
}

/// Adds a value as a literal. (SQL)
pub(crate) fn append_literal(text: &mut Bytes, alloc: Global, value: &Value) -> Result<(), NoMemory>
    ensures { OnOk result (text.new ≡ text.old ++ literal_text value.now) }
{
    match value {
        Value::Null => text.append(b"NULL"),
        Value::Text(inner) => append_quoted(text, b'\'', inner.as_bytes()),
        Value::Num(num) => text.append(num.print(alloc)?.as_bytes()),
        Value::Truth(true) => text.append(b"TRUE"),
        Value::Truth(false) => text.append(b"FALSE"),
        Value::Day(_) => append_worded(text, b"DATE '", alloc, value),
        Value::Moment(_) => append_worded(text, b"TIMESTAMP '", alloc, value),
    }
}

/// Adds a pattern in quotes. (SQL, LIKE)
pub(crate) fn append_pattern(
    text: &mut Bytes,
    alloc: Global,
    pieces: &[Piece],
) -> Result<(), NoMemory>
    ensures { OnOk result (text.new ≡ text.old ++ quoted_text (pattern_text pieces.now)) }
{
    let pattern = pattern_text(alloc, pieces)?;
    append_quoted(text, b'\'', pattern.as_slice())
}

/// The text of a pattern, in which a byte that stands for itself and would be read as something else is behind a `^`.
pub(crate) fn pattern_text(alloc: Global, pieces: &[Piece]) -> Result<Bytes, NoMemory>
    ensures { IfOk result (λ text. text ≡ pattern_text pieces.now) }
{
    let mut text = Bytes::new(alloc);
    for piece in pieces {
        append_piece(&mut text, *piece)?;
    }
    Ok(text)
}

fn append_piece(text: &mut Bytes, piece: Piece) -> Result<(), NoMemory>
    ensures { OnOk result (text.new ≡ text.old ++ piece_text piece) }
{
    match piece {
        Piece::Any => text.append(b"%"),
        Piece::One => text.append(b"_"),
        Piece::Byte(byte) => append_plain(text, byte),
    }
}

// A byte of a pattern that stands for itself.
fn append_plain(text: &mut Bytes, byte: u8) -> Result<(), NoMemory>
    ensures { OnOk result (text.new ≡ text.old ++ byte_text byte) }
{
    if byte == b'%' || byte == b'_' || byte == b'^' {
        text.append(&[b'^', byte])
    } else {
        text.append(&[byte])
    }
}

// A day or a moment in quotes, behind its word.
fn append_worded(
    text: &mut Bytes,
    word: &[u8],
    alloc: Global,
    value: &Value,
) -> Result<(), NoMemory>
    ensures { OnOk result (text.new ≡ text.old ++ word.now ++ value_text value.now ++ codes "'") }
{
    let printed = print_cell(alloc, &Cell::Value(value.copy(alloc)?), &Shape::Plain)?;
    text.append(word)?;
    text.append(printed.as_bytes())?;
    text.append(b"'")
}

fn append_quoted(text: &mut Bytes, quote: u8, inner: &[u8]) -> Result<(), NoMemory>
    ensures { OnOk result (text.new ≡ text.old ++ quoted quote inner.now) }
{
    text.append(&[quote])?;
    append_doubled(text, quote, inner)?;
    text.append(&[quote])
}

fn append_doubled(text: &mut Bytes, quote: u8, inner: &[u8]) -> Result<(), NoMemory>
    ensures { OnOk result (text.new ≡ text.old ++ doubled quote inner.now) }
{
    for byte in inner {
        append_byte(text, quote, *byte)?;
    }
    Ok(())
}

fn append_byte(text: &mut Bytes, quote: u8, byte: u8) -> Result<(), NoMemory>
    ensures { OnOk result (text.new ≡ text.old ++ doubled_byte quote byte) }
{
    if byte == quote {
        text.append(&[quote, quote])
    } else {
        text.append(&[byte])
    }
}
