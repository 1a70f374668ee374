ghost use Rattle.std.specs.Prelude.{◌≡◌, ◌≤◌, ◌∷◌, List, IfOk, length};
ghost use Rattle.lk_val.specs.ValueRefs.{value_of_ref};
ghost use Rattle.lk_types.specs.Expressions.{like};
ghost use Rattle.lk_types.specs.declared.expr.Piece.{Piece};
ghost use Rattle.lk_eval.specs.Patterns.{pattern_of, pattern_text};

use lk_types::{Piece, matches};
use lk_val::{Items, NoMemory, Text, ValueRef};
use std::alloc::Global;

/// The pattern that the text behind a LIKE stands for: `%` any characters, `_` one character, and `^` quotes what is
/// behind it, or stands for itself where nothing is. (lookd)
pub fn read_pattern(alloc: Global, text: &Text) -> Result<Items<Piece>, NoMemory>
    ensures { IfOk result (λ pieces. pieces ≡ pattern_of text.now) }
{
    let mut pieces = Items::new(alloc);
    let mut rest = text.as_bytes();
    while let Some((byte, behind)) = rest.split_first() {
        let (piece, left) = first_piece(*byte, behind);
        pieces.push(piece)?;
        rest = left;
    }
    Ok(pieces)
}

// The piece that begins at a byte, and what is behind it.
fn first_piece(byte: u8, behind: &[u8]) -> (Piece, &[u8])
    ensures piece { result.0 ∷ pattern_of result.1.now ≡ pattern_of (byte ∷ behind.now) }
    ensures shorter { length result.1.now ≤ length behind.now }
{
    match byte {
        b'%' => (Piece::Any, behind),
        b'_' => (Piece::One, behind),
        b'^' => match behind.split_first() {
            Some((quoted, left)) => (Piece::Byte(*quoted), left),
            None => (Piece::Byte(b'^'), behind),
        },
        _ => (Piece::Byte(byte), behind),
    }
}

/// Each pattern is that of a text: the one in which each byte is quoted. A law: it computes nothing.
pub fn each_pattern_has_a_text()
    ensures { (pieces : List Piece) → pattern_of (pattern_text pieces) ≡ pieces }
{}

// Whether a text matches a pattern; unknown for other values.
pub(crate) fn like(v: ValueRef<'_>, pieces: &[Piece]) -> Option<bool>
    ensures { result ≡ like (value_of_ref v.entry) pieces.now }
{
    match v {
        ValueRef::Text(text) => Some(matches(pieces, text.as_bytes())),
        _ => None,
    }
}
