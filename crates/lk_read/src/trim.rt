ghost use Rattle.std.specs.Prelude.{◌≡◌};
ghost use Rattle.lk_read.specs.Grammar.{without_front, without_end, trimmed};

use crate::letters::is_space;

/// The text without the white space at its front and at its end.
pub(crate) fn trimmed(text: &[u8]) -> &[u8]
    ensures { result.now ≡ trimmed text.now }
{
    without_end(without_front(text))
}

fn without_front(text: &[u8]) -> &[u8]
    ensures { result.now ≡ without_front text.now }
{
    let mut rest = text;
    while let Some((first, behind)) = rest.split_first() {
        if !is_space(*first) {
            return rest;
        }
        rest = behind;
    }
    rest
}

fn without_end(text: &[u8]) -> &[u8]
    ensures { result.now ≡ without_end text.now }
{
    let mut front = text;
    while let Some((last, before)) = front.split_last() {
        if !is_space(*last) {
            return front;
        }
        front = before;
    }
    front
}
