ghost use Rattle.std.specs.Prelude.{◌≡◌, ◌++◌, IfOk, false, option_map};
ghost use Rattle.lk_sql_read.specs.Quoting.{first_characters, first_quoted, first_text, pieces_from, plain_piece};

use lk_types::Piece;
use lk_val::{Bytes, Items, NoMemory, Text};
use std::alloc::Global;

/// The text between two quotes that comes first, and what is behind it; a quote in it stands twice. None where the text
/// is not UTF-8. (SQL)
pub(crate) fn first_text(
    alloc: Global,
    quote: u8,
    text: &[u8],
) -> Result<Option<(Text, &[u8])>, NoMemory>
    ensures { IfOk result (λ found. option_map (λ first. (first.0, first.1.now)) found ≡ first_text quote text.now) }
{
    let Some((characters, rest)) = first_quoted(alloc, quote, text)? else {
        return Ok(None);
    };
    match Text::from_utf8(alloc, characters.as_slice())? {
        Some(text) => Ok(Some((text, rest))),
        None => Ok(None),
    }
}

/// The bytes between two quotes that come first, and what is behind them.
pub(crate) fn first_quoted(
    alloc: Global,
    quote: u8,
    text: &[u8],
) -> Result<Option<(Vec<u8>, &[u8])>, NoMemory>
    ensures { IfOk result (λ found. option_map (λ first. (first.0.items, first.1.now)) found ≡ first_quoted quote text.now) }
{
    match text.split_first() {
        Some((byte, behind)) if *byte == quote => first_characters(alloc, quote, behind),
        _ => Ok(None),
    }
}

// The characters up to the quote that no quote follows, and what is behind it.
fn first_characters(
    alloc: Global,
    quote: u8,
    text: &[u8],
) -> Result<Option<(Vec<u8>, &[u8])>, NoMemory>
    ensures { IfOk result (λ found. option_map (λ first. (first.0.items, first.1.now)) found ≡ first_characters quote text.now) }
{
    let mut characters = Vec::new(alloc);
    let mut rest = text;
    while let Some((byte, behind)) = rest.split_first() {
        rest = behind;
        if *byte == quote {
            match behind.split_first() {
                Some((second, further)) if *second == quote => rest = further,
                _ => return Ok(Some((characters, rest))),
            }
        }
        characters.push(*byte)?;
    }
    Ok(None)
}

/// The pieces of a pattern: `%` for any characters, `_` for one, and a byte behind a `^` for itself. (SQL, LIKE; lookd)
pub(crate) fn pieces_of(alloc: Global, pattern: &[u8]) -> Result<Items<Piece>, NoMemory>
    ensures { IfOk result (λ pieces. pieces ≡ pieces_from false pattern.now) }
{
    let mut pieces = Items::new(alloc);
    let mut escaped = false;
    for byte in pattern {
        if escaped {
            pieces.push(Piece::Byte(*byte))?;
            escaped = false;
        } else if *byte == b'^' {
            escaped = true;
        } else {
            pieces.push(plain_piece(*byte))?;
        }
    }
    Ok(pieces)
}

fn plain_piece(byte: u8) -> Piece
    ensures { result ≡ plain_piece byte }
{
    match byte {
        b'%' => Piece::Any,
        b'_' => Piece::One,
        _ => Piece::Byte(byte),
    }
}
