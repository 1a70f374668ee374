ghost use Rattle.std.specs.Prelude.{◌≡◌, ◌≤◌, true, length};
ghost use Rattle.lk_filter_text.specs.Characters.{character_length, is_in, is_plain_byte, begins_two, begins_three, begins_four, ends_one, ends_two, ends_three};

use lk_grammar::Literals;

/// The characters of UTF-8 that stand for themselves: all but a comma, `%` and `^`.
#[derive(Clone, Copy)]
pub(crate) struct Characters;

impl Literals for Characters {
    ghost use Rattle.lk_filter_text.specs.Characters.{character_length};

    ghost length_of = { λ _. character_length };

    fn length(&self, text: &[u8]) -> usize {
        character_length(text)
    }
}

fn character_length(text: &[u8]) -> usize
    ensures exact { result ≡ character_length text.now }
    ensures within { result ≤ length text.now }
{
    let Some((first, rest)) = text.split_first() else {
        return 0;
    };
    if is_plain_byte(*first) {
        1
    } else if begins_two(*first, rest) {
        2
    } else if begins_three(*first, rest) {
        3
    } else if begins_four(*first, rest) {
        4
    } else {
        0
    }
}

fn is_plain_byte(byte: u8) -> bool
    ensures { result ≡ is_plain_byte byte }
{
    is_in(0, 36, byte) || is_in(38, 43, byte) || is_in(45, 93, byte) || is_in(95, 127, byte)
}

fn begins_two(first: u8, rest: &[u8]) -> bool
    ensures exact { result ≡ begins_two first rest.now }
    ensures within { result ≡ true → 1 ≤ length rest.now }
{
    is_in(194, 223, first) && ends_one(128, 191, rest)
}

fn begins_three(first: u8, rest: &[u8]) -> bool
    ensures exact { result ≡ begins_three first rest.now }
    ensures within { result ≡ true → 2 ≤ length rest.now }
{
    is_in(224, 224, first) && ends_two(160, 191, rest)
        || is_in(225, 236, first) && ends_two(128, 191, rest)
        || is_in(237, 237, first) && ends_two(128, 159, rest)
        || is_in(238, 239, first) && ends_two(128, 191, rest)
}

fn begins_four(first: u8, rest: &[u8]) -> bool
    ensures exact { result ≡ begins_four first rest.now }
    ensures within { result ≡ true → 3 ≤ length rest.now }
{
    is_in(240, 240, first) && ends_three(144, 191, rest)
        || is_in(241, 243, first) && ends_three(128, 191, rest)
        || is_in(244, 244, first) && ends_three(128, 143, rest)
}

fn ends_three(low: u8, high: u8, text: &[u8]) -> bool
    ensures exact { result ≡ ends_three low high text.now }
    ensures within { result ≡ true → 3 ≤ length text.now }
{
    match text.split_first() {
        None => false,
        Some((byte, rest)) => is_in(low, high, *byte) && ends_two(128, 191, rest),
    }
}

fn ends_two(low: u8, high: u8, text: &[u8]) -> bool
    ensures exact { result ≡ ends_two low high text.now }
    ensures within { result ≡ true → 2 ≤ length text.now }
{
    match text.split_first() {
        None => false,
        Some((byte, rest)) => is_in(low, high, *byte) && ends_one(128, 191, rest),
    }
}

fn ends_one(low: u8, high: u8, text: &[u8]) -> bool
    ensures exact { result ≡ ends_one low high text.now }
    ensures within { result ≡ true → 1 ≤ length text.now }
{
    match text.split_first() {
        None => false,
        Some((byte, _)) => is_in(low, high, *byte),
    }
}

fn is_in(low: u8, high: u8, byte: u8) -> bool
    ensures { result ≡ is_in low high byte }
{
    low <= byte && byte <= high
}
