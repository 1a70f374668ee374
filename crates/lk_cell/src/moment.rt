ghost use Rattle.std.specs.Prelude.{◌≡◌, ◌<◌, IfSome};
ghost use Rattle.std.specs.Char.{is_ascii_digit};
ghost use Rattle.std.specs.List.{list_all};
ghost use Rattle.lk_val.specs.Numbers.{is_digits};
ghost use Rattle.lk_cell.specs.Moments.{clock_second, if_ended, is_fraction, moment_cell, second_at, second_of_numbers, second_behind, without_zone};

use crate::day::read_day;
use crate::pieces::{behind, front, two_digits};

/// The moment that a cell writes, in seconds from 1970-01-01 00:00:00 UTC: a day, and optionally a space or `T` and
/// `HH:MM:SS`, `.` and digits, which are dropped, and `Z` or ` UTC`.
#[tactic(auto, unfolding(crate::specs::Moments::moment_cell))]
pub fn read_moment(text: &[u8]) -> Option<i64>
    ensures { result ≡ moment_cell text.now }
{
    let day = read_day(front(text, 10))?;
    let second = second_behind(behind(text, 10))?;
    Some(i64::from(day) * 86_400 + i64::from(second))
}

// The second of the day that the text behind a day writes.
#[tactic(auto, unfolding(crate::specs::Moments::second_behind))]
fn second_behind(text: &[u8]) -> Option<u32>
    ensures { result ≡ second_behind text.now }
{
    match clock_second(front(text, 9)) {
        Some(second) => if_ended(second, behind(text, 9)),
        None => if_ended(0, text),
    }
}

fn clock_second(text: &[u8]) -> Option<u32>
    ensures { result ≡ clock_second text.now }
{
    match text {
        [b' ' | b'T', h, o, b':', m, n, b':', s, c] => {
            second_of_numbers(two_digits(*h, *o), two_digits(*m, *n), two_digits(*s, *c))
        }
        _ => None,
    }
}

// The second at which a clock shows these numbers, where each of them is one.
fn second_of_numbers(hour: Option<u32>, minute: Option<u32>, second: Option<u32>) -> Option<u32>
    ensures { result ≡ second_of_numbers hour minute second }
{
    second_at(hour?, minute?, second?)
}

fn second_at(hour: u32, minute: u32, second: u32) -> Option<u32>
    ensures { result ≡ second_at hour minute second }
{
    if hour <= 23 && minute <= 59 && second <= 59 {
        Some(3600 * hour + 60 * minute + second)
    } else {
        None
    }
}

fn if_ended(second: u32, text: &[u8]) -> Option<u32>
    ensures { result ≡ if_ended second text.now }
{
    if is_fraction(without_zone(text)) {
        Some(second)
    } else {
        None
    }
}

fn is_fraction(text: &[u8]) -> bool
    ensures { result ≡ is_fraction text.now }
{
    match text {
        [] => true,
        [dot, digits @ ..] => *dot == b'.' && is_digits(digits),
    }
}

fn is_digits(text: &[u8]) -> bool
    ensures { result ≡ is_digits text.now }
{
    !text.is_empty() && all_digits(text)
}

fn all_digits(text: &[u8]) -> bool
    ensures { result ≡ list_all is_ascii_digit text.now }
{
    text.iter().all(|c| c.is_ascii_digit())
}

fn without_zone(text: &[u8]) -> &[u8]
    ensures { result.now ≡ without_zone text.now }
{
    if text.ends_with(b" UTC") {
        front(text, text.len() - 4)
    } else if text.ends_with(b"Z") {
        front(text, text.len() - 1)
    } else {
        text
    }
}
