ghost use Rattle.std.specs.Prelude.{◌≡◌};
ghost use Rattle.lk_types.specs.Expressions.{matches, some_end, after_character};
ghost use Rattle.lk_types.specs.Fitting.{fit_front, fit_of};

use crate::expr::Piece;

/// How far a pattern fits a text from its front.
enum Fit<'a> {
    /// All of it fits all of the text.
    Whole,
    /// It does not fit.
    Not,
    /// It fits up to its first piece for any characters. What is behind that piece, and the text that is left.
    UpTo(&'a [Piece], &'a [u8]),
}

/// Whether a pattern covers a text: any characters, one character of UTF-8, or a byte for each piece. At most as many
/// steps as the product of both lengths. (SQL, LIKE)
pub fn matches(pieces: &[Piece], text: &[u8]) -> bool
    ensures { result ≡ matches pieces.now text.now }
{
    match fit_front(pieces, text) {
        Fit::Whole => true,
        Fit::Not => false,
        Fit::UpTo(rest, behind) => matches_some_end(rest, behind),
    }
}

/// Whether a pattern covers some end of a text. The first place at which it fits up to a piece for any characters
/// is the best one, so no earlier place is tried again.
fn matches_some_end(pieces: &[Piece], text: &[u8]) -> bool
    ensures { result ≡ some_end (matches pieces.now) text.now }
{
    let mut left = pieces;
    let mut rest = text;
    loop {
        match fit_front(left, rest) {
            Fit::Whole => return true,
            Fit::UpTo(further, behind) => {
                left = further;
                rest = behind;
            }
            Fit::Not => match rest.split_first() {
                None => return false,
                Some((_, behind)) => rest = behind,
            },
        }
    }
}

fn fit_front<'a>(pieces: &'a [Piece], text: &'a [u8]) -> Fit<'a>
    ensures { fit_of result ≡ fit_front pieces.now text.now }
{
    let mut left = pieces;
    let mut rest = text;
    while let Some((piece, further)) = left.split_first() {
        if let Piece::Any = *piece {
            return Fit::UpTo(further, rest);
        }
        let Some((first, behind)) = rest.split_first() else {
            return Fit::Not;
        };
        rest = match *piece {
            Piece::Byte(byte) => {
                if byte != *first {
                    return Fit::Not;
                }
                behind
            }
            _ => after_character(behind),
        };
        left = further;
    }
    if rest.is_empty() {
        Fit::Whole
    } else {
        Fit::Not
    }
}

fn after_character(text: &[u8]) -> &[u8]
    ensures { result.now ≡ after_character text.now }
{
    let mut rest = text;
    while let Some((first, behind)) = rest.split_first() {
        if !(128..192).contains(first) {
            return rest;
        }
        rest = behind;
    }
    rest
}
