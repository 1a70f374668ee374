ghost use Rattle.std.specs.Prelude.{◌≡◌, ◌≤◌, IfSome, option_map};
ghost use Rattle.lk_types.specs.Calendar.{is_leap, month_start, from_1970};
ghost use Rattle.lk_filter_date.specs.DateTexts.{month_length, days_between, days_of_year, days_of_month, days_of_day, is_separator, pair_value, numeral_from, first_numeral, first_part, day_at, month_at, year_at, year_of_digits, days_of, count_from, count_of};

use lk_types::{Days, month_start, year_start};

// The day 1970-01-01, from 0001-01-01.
const DAY_OF_1970: i32 = 719_162;

/// The days of the date that a text is: a year, a month or a day, with `-` or `/` between its parts. (Looker, filter
/// expressions: date)
pub(crate) fn days_of(text: &[u8]) -> Option<Days>
    ensures { result ≡ days_of text.now }
{
    match text {
        [a, b, c, d, rest @ ..] => match year_of_digits(*a, *b, *c, *d) {
            None => None,
            Some(year) => year_at(year, rest),
        },
        _ => None,
    }
}

fn year_of_digits(a: u8, b: u8, c: u8, d: u8) -> Option<u64>
    ensures exact { result ≡ year_of_digits a b c d }
    ensures bound { IfSome result (λ year. year ≤ 9999) }
{
    if !(a.is_ascii_digit() && b.is_ascii_digit() && c.is_ascii_digit() && d.is_ascii_digit()) {
        return None;
    }
    let year = 100 * u64::from(pair_value(a, b)) + u64::from(pair_value(c, d));
    if year == 0 { None } else { Some(year) }
}

fn year_at(year: u64, text: &[u8]) -> Option<Days>
    requires { year ≤ 9999 }
    ensures { result ≡ year_at year text.now }
{
    if text.is_empty() {
        return Some(days_between(year_start(year), year_start(year + 1)));
    }
    match first_part(text) {
        None => None,
        Some((month, rest)) => month_at(year, u64::from(month), rest),
    }
}

fn month_at(year: u64, month: u64, text: &[u8]) -> Option<Days>
    requires { year ≤ 9999 }
    ensures { result ≡ month_at year (month, text.now) }
{
    if !(1..=12).contains(&month) {
        return None;
    }
    if text.is_empty() {
        let first = month_start(year, month);
        return Some(days_between(first, first + month_length(is_leap(year), month)));
    }
    match first_part(text) {
        None => None,
        Some((day, rest)) => day_at(year, month, u64::from(day), rest),
    }
}

fn day_at(year: u64, month: u64, day: u64, text: &[u8]) -> Option<Days>
    requires { year ≤ 9999 }
    ensures { result ≡ day_at year month (day, text.now) }
{
    if !text.is_empty() || day < 1 || month_length(is_leap(year), month) < day {
        return None;
    }
    let first = month_start(year, month);
    Some(days_between(first + (day - 1), first + day))
}

fn days_between(from: u64, up_to: u64) -> Days
    requires from { from ≤ 4000000 }
    requires up_to { up_to ≤ 4000000 }
    ensures { result ≡ days_between from up_to }
{
    Days {
        from: from as i32 - DAY_OF_1970,
        up_to: up_to as i32 - DAY_OF_1970,
    }
}

fn is_leap(year: u64) -> bool
    ensures { result ≡ is_leap year }
{
    year % 4 == 0 && (year % 100 != 0 || year % 400 == 0)
}

/// How many days a month has, 0 past the last month.
pub(crate) fn month_length(leap: bool, month: u64) -> u64
    ensures exact { result ≡ month_length leap month }
    ensures bound { result ≤ 31 }
{
    match month {
        0 | 1 | 3 | 5 | 7 | 8 | 10 | 12 => 31,
        4 | 6 | 9 | 11 => 30,
        2 => if leap { 29 } else { 28 },
        _ => 0,
    }
}

/// The number of one or two digits behind the separator that a text begins with, and what is behind it.
fn first_part(text: &[u8]) -> Option<(u8, &[u8])>
    ensures { option_map (λ found. (found.0, found.1.now)) result ≡ first_part text.now }
{
    match text.split_first() {
        Some((b'-' | b'/', rest)) => first_numeral(rest),
        _ => None,
    }
}

fn first_numeral(text: &[u8]) -> Option<(u8, &[u8])>
    ensures { option_map (λ found. (found.0, found.1.now)) result ≡ first_numeral text.now }
{
    match text.split_first() {
        Some((first, rest)) if first.is_ascii_digit() => Some(numeral_from(*first, rest)),
        _ => None,
    }
}

fn numeral_from(first: u8, text: &[u8]) -> (u8, &[u8])
    requires { first ≤ 57 }
    ensures { (result.0, result.1.now) ≡ numeral_from first text.now }
{
    match text.split_first() {
        Some((second, rest)) if second.is_ascii_digit() => (pair_value(first, *second), rest),
        _ => (first.saturating_sub(b'0'), text),
    }
}

fn pair_value(tens: u8, ones: u8) -> u8
    requires tens { tens ≤ 57 }
    requires ones { ones ≤ 57 }
    ensures exact { result ≡ pair_value tens ones }
    ensures bound { result ≤ 99 }
{
    10 * tens.saturating_sub(b'0') + ones.saturating_sub(b'0')
}

/// The number from 1 to 10,000 that a text is, without a leading 0.
pub(crate) fn count_of(text: &[u8]) -> Option<u32>
    ensures { result ≡ count_of text.now }
{
    match text.split_first() {
        Some((first, rest)) if first.is_ascii_digit() && *first != b'0' => {
            count_from(u32::from(first.saturating_sub(b'0')), rest)
        }
        _ => None,
    }
}

fn count_from(value: u32, text: &[u8]) -> Option<u32>
    requires { value ≤ 10000 }
    ensures { result ≡ count_from value text.now }
{
    let Some((digit, rest)) = text.split_first() else {
        return Some(value);
    };
    let more = 10 * value + u32::from(digit.saturating_sub(b'0'));
    if digit.is_ascii_digit() && more <= 10000 {
        count_from(more, rest)
    } else {
        None
    }
}
