ghost use Rattle.std.specs.Prelude.{◌≡◌, ◌≤◌, length};
ghost use Rattle.lk_filter_date.specs.DateTexts.{is_of_date, date_count, date_length};

use lk_grammar::Literals;

/// Dates and counts: a digit, and any number of digits, `-` and `/` behind it.
#[derive(Clone, Copy)]
pub(crate) struct DateLiterals;

impl Literals for DateLiterals {
    ghost use Rattle.lk_filter_date.specs.DateTexts.{date_length};

    ghost length_of = { λ _. date_length };

    fn length(&self, text: &[u8]) -> usize {
        date_length(text)
    }
}

fn date_length(text: &[u8]) -> usize
    ensures exact { result ≡ date_length text.now }
    ensures within { result ≤ length text.now }
{
    match text.split_first() {
        Some((first, rest)) if first.is_ascii_digit() => 1 + date_count(rest),
        _ => 0,
    }
}

fn date_count(text: &[u8]) -> usize
    ensures exact { result ≡ date_count text.now }
    ensures within { result ≤ length text.now }
{
    let mut count = 0;
    for byte in text {
        if !is_of_date(*byte) {
            return count;
        }
        count += 1;
    }
    count
}

fn is_of_date(byte: u8) -> bool
    ensures { result ≡ is_of_date byte }
{
    byte == b'-' || (b'/'..=b'9').contains(&byte)
}
