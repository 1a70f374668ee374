ghost use Rattle.std.specs.Prelude.{◌≡◌, ◌≤◌, length};
ghost use Rattle.lk_grammar.specs.Places.{place_from};
ghost use Rattle.lk_expr_token.specs.declared.quoting.Quoting.TheVariants as quoting;
ghost use Rattle.lk_expr_token.specs.Quoting.{closed, opened, quoting_after};

use lk_utf8::{Utf8, is_whole, utf8_after};

// Where the characters of a text stand between its quotes.
#[derive(Clone, Copy, PartialEq, Eq)]
pub(crate) enum Quoting {
    // Before the first quote.
    Unopened,
    // Among the characters, of which the last may owe bytes.
    Inside(Utf8),
    // Behind a quote that ends the text, unless another follows.
    BehindQuote,
}

// How many bytes come first that begin a text between quotes.
pub(crate) fn text_front(text: &[u8]) -> usize
    ensures { result ≡ place_from quoting_after quoting.Unopened text.now }
{
    let mut quoting = Quoting::Unopened;
    let mut place = 0;
    for byte in text {
        match quoting_after(quoting, *byte) {
            None => return place,
            Some(next) => quoting = next,
        }
        place += 1;
    }
    place
}

fn quoting_after(quoting: Quoting, byte: u8) -> Option<Quoting>
    ensures { result ≡ quoting_after quoting byte }
{
    match quoting {
        Quoting::Inside(owed) if byte == b'\'' => closed(owed),
        Quoting::Inside(owed) => Some(Quoting::Inside(utf8_after(owed, byte)?)),
        _ => opened(byte),
    }
}

fn opened(byte: u8) -> Option<Quoting>
    ensures { result ≡ opened byte }
{
    if byte == b'\'' {
        Some(Quoting::Inside(Utf8::Whole))
    } else {
        None
    }
}

fn closed(owed: Utf8) -> Option<Quoting>
    ensures { result ≡ closed owed }
{
    if is_whole(owed) {
        Some(Quoting::BehindQuote)
    } else {
        None
    }
}
