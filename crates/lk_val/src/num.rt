ghost use Rattle.std.specs.Prelude.{◌≡◌, ◌≤◌, ◌<◌, ◌+◌, ◌-◌, ◌*◌, ◌^◌, ℕ, min, drop, length, IfOk, IfSome, string_bytes};
ghost use Rattle.std.specs.Char.{is_ascii_digit};
ghost use Rattle.std.specs.List.{list_all, position};
ghost use Rattle.lk_val.specs.Numbers.{num_of, decimal_of, parted_of, is_digits, is_dot, is_too_fine, value_from, magnitude, place, in_range, number_text, places_text};

use crate::memory::NoMemory;
use crate::text::Text;
use std::alloc::Global;

/// A number of a table: a count of 1/10,000.
#[derive(Clone, Copy, PartialEq, Eq, PartialOrd, Ord)]
pub struct Num(pub i64);

/// Why a cell does not read as a number. The causes are tested in this order.
#[derive(Clone, Copy, PartialEq, Eq)]
pub enum NumFault {
    /// The text is no decimal.
    NotNumber,
    /// A digit other than 0 stands past the fourth place.
    Places,
    /// The count of 1/10,000 does not fit 64 bits.
    Range,
}

// One more than the greatest size of a number.
const CAP: u64 = 9223372036854775809;

impl Num {
    /// Reads a cell: an optional `-`, digits, and optionally a dot and digits. It takes no memory.
    #[tactic(auto, unfolding(crate::specs::Numbers::num_of))]
    pub fn read(text: &[u8]) -> Result<Num, NumFault>
        ensures { result ≡ num_of text.now }
    {
        if !text.is_empty() && text[0] == b'-' {
            read_decimal(true, &text[1..])
        } else {
            read_decimal(false, text)
        }
    }

    /// The shortest text of the number: no zeros that can be left out, and `-` only below 0.
    pub fn print(self, alloc: Global) -> Result<Text, NoMemory>
        ensures { IfOk result (λ text. text ≡ number_text self.0) }
    {
        print_count(alloc, i128::from(self.0))
    }
}

/// Prints a count of 1/10,000, as a sum is one, like a number.
pub fn print_count(alloc: Global, count: i128) -> Result<Text, NoMemory>
    ensures { IfOk result (λ text. text ≡ number_text count) }
{
    let size = count.unsigned_abs();
    let whole = size / 10000;
    let places = print_places(alloc, (size % 10000) as u16)?;
    let sign = if count < 0 { "-" } else { "" };
    Ok(Text::from_string(format!(in alloc; "{sign}{whole}{places}")?))
}

fn print_places(alloc: Global, places: u16) -> Result<String, NoMemory>
    requires { places < 10000 }
    ensures { IfOk result (λ text. string_bytes text ≡ places_text places) }
{
    let first = places / 1000 % 10;
    let second = places / 100 % 10;
    let third = places / 10 % 10;
    let fourth = places % 10;
    if places == 0 {
        return Ok(String::new(alloc));
    }
    if places % 1000 == 0 {
        return Ok(format!(in alloc; ".{first}")?);
    }
    if places % 100 == 0 {
        return Ok(format!(in alloc; ".{first}{second}")?);
    }
    if places % 10 == 0 {
        return Ok(format!(in alloc; ".{first}{second}{third}")?);
    }
    Ok(format!(in alloc; ".{first}{second}{third}{fourth}")?)
}

fn read_decimal(negative: bool, body: &[u8]) -> Result<Num, NumFault>
    ensures { result ≡ decimal_of negative body.now }
{
    match find_dot(body) {
        None => {
            if is_digits(body) {
                signed(negative, capped_magnitude(body, &[]))
            } else {
                Err(NumFault::NotNumber)
            }
        }
        Some(dot) => read_parted(negative, body.split_at(dot).0, body.split_at(dot + 1).1),
    }
}

fn read_parted(negative: bool, whole: &[u8], behind: &[u8]) -> Result<Num, NumFault>
    ensures { result ≡ parted_of negative whole.now behind.now }
{
    if !is_digits(whole) || !is_digits(behind) {
        return Err(NumFault::NotNumber);
    }
    if is_too_fine(behind) {
        return Err(NumFault::Places);
    }
    signed(negative, capped_magnitude(whole, behind))
}

fn find_dot(body: &[u8]) -> Option<usize>
    ensures place { result ≡ position is_dot body.now }
    ensures within { IfSome result (λ dot. dot < length body.now) }
{
    body.iter().position(|c| *c == b'.')
}

fn is_digits(text: &[u8]) -> bool
    ensures { result ≡ is_digits text.now }
{
    !text.is_empty() && all_digits(text)
}

fn all_digits(text: &[u8]) -> bool
    ensures { result ≡ list_all is_ascii_digit text.now }
{
    text.iter().all(|c| c.is_ascii_digit())
}

fn is_too_fine(behind: &[u8]) -> bool
    ensures { result ≡ is_too_fine behind.now }
{
    past_fourth(behind).iter().any(|c| *c != b'0')
}

fn past_fourth(behind: &[u8]) -> &[u8]
    ensures { result.now ≡ drop 4 behind.now }
{
    if behind.len() > 4 {
        behind.split_at(4).1
    } else {
        &[]
    }
}

// The number with one more digit, or the cap where it is past that.
fn push_digit(value: u64, digit: u8) -> u64
    requires { value ≤ 9223372036854775809 }
    ensures value { result ≡ min (10 * value + (digit - 48)) 9223372036854775809 }
    ensures capped { result ≤ 9223372036854775809 }
{
    if value > CAP / 10 {
        CAP
    } else {
        (value * 10 + u64::from(digit.saturating_sub(b'0'))).min(CAP)
    }
}

fn capped_value(whole: &[u8]) -> u64
    ensures value { result ≡ min (value_from 0 whole.now) 9223372036854775809 }
    ensures capped { result ≤ 9223372036854775809 }
{
    let mut value = 0;
    for c in whole {
        value = push_digit(value, *c);
    }
    value
}

fn digit_behind(behind: &[u8], at: usize) -> u8
    ensures { result - 48 ≡ place behind.now at }
{
    if at < behind.len() { behind[at] } else { b'0' }
}

fn capped_magnitude(whole: &[u8], behind: &[u8]) -> u64
    ensures value { result ≡ min (magnitude whole.now behind.now) 9223372036854775809 }
    ensures capped { result ≤ 9223372036854775809 }
{
    let one = push_digit(capped_value(whole), digit_behind(behind, 0));
    let two = push_digit(one, digit_behind(behind, 1));
    let three = push_digit(two, digit_behind(behind, 2));
    push_digit(three, digit_behind(behind, 3))
}

fn signed(negative: bool, capped: u64) -> Result<Num, NumFault>
    requires { capped ≤ 9223372036854775809 }
    ensures { (size : ℕ) → capped ≡ min size 9223372036854775809 → result ≡ in_range negative size }
{
    if negative {
        if capped == CAP {
            Err(NumFault::Range)
        } else if capped == CAP - 1 {
            Ok(Num(i64::MIN))
        } else {
            Ok(Num(-(capped as i64)))
        }
    } else if capped < CAP - 1 {
        Ok(Num(capped as i64))
    } else {
        Err(NumFault::Range)
    }
}
