ghost use Rattle.std.specs.Prelude.{◌≡◌, ◌≤◌, ◌<◌, ◌^◌, pos, neg_ℤ, ◌≤ℤ◌};
ghost use Rattle.lk_types.specs.Calendar.{is_leap, year_start, year_of, days_before, month_start, month_of, day_of_month, from_year_one, day_of_moment, second_of_moment};

// The months, by their numbers.
const MONTHS: [u64; 12] = [1, 2, 3, 4, 5, 6, 7, 8, 9, 10, 11, 12];

// The day 1970-01-01, from 0001-01-01.
const DAY_OF_1970: i64 = 719_162;

/// The year that a day is in; the day counts from 0001-01-01. (Gregorian calendar)
#[tactic(auto, unfolding(crate::specs::Calendar::year_of))]
pub fn year_of(day: u64) -> u64
    requires { day < 2 ^ 50 }
    ensures year { result ≡ year_of day }
    ensures bound { result < 2 ^ 50 }
{
    let guess = day * 400 / 146097 + 1;
    if year_start(guess + 1) <= day {
        guess + 1
    } else if year_start(guess) <= day {
        guess
    } else {
        guess.saturating_sub(1)
    }
}

/// The month of a year that a day is in, 1 to 12; the day counts from 0001-01-01. (Gregorian calendar)
#[tactic(auto, unfolding(crate::specs::Calendar::month_of))]
pub fn month_of(year: u64, day: u64) -> u64
    requires { year < 2 ^ 50 }
    ensures month { result ≡ month_of year day }
    ensures bound { result ≤ 12 }
{
    MONTHS
        .iter()
        .filter(|month| month_start(year, **month) <= day)
        .count() as u64
}

// The day of its month that a day is, from 1.
#[tactic(auto, unfolding(crate::specs::Calendar::day_of_month))]
pub(crate) fn day_of_month(day: u64) -> u64
    requires { day < 2 ^ 50 }
    ensures { result ≡ day_of_month day }
{
    let year = year_of(day);
    day.saturating_sub(month_start(year, month_of(year, day))) + 1
}

fn is_leap(year: u64) -> bool
    ensures { result ≡ is_leap year }
{
    year % 4 == 0 && (year % 100 != 0 || year % 400 == 0)
}

/// The first day of a year, from 0001-01-01. (Gregorian calendar)
pub fn year_start(year: u64) -> u64
    requires { year ≤ 2 ^ 50 }
    ensures start { result ≡ year_start year }
    ensures bound { result < 2 ^ 60 }
{
    let before = year.saturating_sub(1);
    365 * before + before / 4 - before / 100 + before / 400
}

/// The first day of a month of a year, from 0001-01-01. (Gregorian calendar)
pub fn month_start(year: u64, month: u64) -> u64
    requires { year < 2 ^ 50 }
    ensures { result ≡ month_start year month }
{
    let leap_day = if is_leap(year) && 2 < month { 1 } else { 0 };
    year_start(year) + days_before(month) + leap_day
}

// The days of a year that isn't a leap year before a month, 0 past the last month.
fn days_before(month: u64) -> u64
    ensures days { result ≡ days_before month }
    ensures bound { result < 2 ^ 16 }
{
    match month {
        2 => 31,
        3 => 59,
        4 => 90,
        5 => 120,
        6 => 151,
        7 => 181,
        8 => 212,
        9 => 243,
        10 => 273,
        11 => 304,
        12 => 334,
        _ => 0,
    }
}

/// A day from 1970-01-01 as one from 0001-01-01.
#[tactic(auto, unfolding(crate::specs::Calendar::from_year_one))]
pub fn from_year_one(day: i64) -> u64
    requires low { neg_ℤ (pos (2 ^ 48)) ≤ℤ day }
    requires high { day ≤ℤ pos (2 ^ 48) }
    ensures day { result ≡ from_year_one day }
    ensures bound { result < 2 ^ 50 }
{
    (day + DAY_OF_1970).unsigned_abs()
}

/// The day of a moment, both from 1970-01-01; a moment counts seconds.
#[tactic(auto, unfolding(crate::specs::Calendar::day_of_moment))]
pub fn day_of_moment(moment: i64) -> i64
    ensures day { result ≡ day_of_moment moment }
    ensures low { neg_ℤ (pos (2 ^ 48)) ≤ℤ result }
    ensures high { result ≤ℤ pos (2 ^ 48) }
{
    moment.div_euclid(86400)
}

// The second of its day that a moment is.
#[tactic(auto, unfolding(crate::specs::Calendar::second_of_moment))]
pub(crate) fn second_of_moment(moment: i64) -> u64
    ensures { result ≡ second_of_moment moment }
{
    moment.rem_euclid(86400).unsigned_abs()
}
