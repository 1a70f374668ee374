// The units of a period, numbered from the first of year 1, and their days.

ghost use Rattle.std.specs.Prelude.{◌≡◌, ◌<◌, ◌-◌, ◌^◌, min};
ghost use Rattle.lk_types.specs.Calendar.{from_1970, year_of};
ghost use Rattle.lk_types.specs.Filters.{month_number, unit_of, unit_start, days_of_units, today_at};

use lk_types::{
    Days, Period, day_of_moment, from_year_one, month_of, month_start, year_of, year_start,
};

// The day after the last of year 9999, and the day 1970-01-01, both from 0001-01-01.
const DAYS_OF_YEARS: u64 = 3_652_059;

const DAY_OF_1970: i32 = 719_162;

// The day of a moment, from the first of year 1; a moment before that counts as it.
#[tactic(auto, unfolding(lk_types::specs::Calendar::from_year_one))]
pub(crate) fn today_at(now: i64) -> u64
    ensures day { result ≡ today_at now }
    ensures bound { result < 2 ^ 49 }
{
    let day = day_of_moment(now);
    if day < -i64::from(DAY_OF_1970) {
        0
    } else {
        from_year_one(day)
    }
}

// The number of the unit that a day is in.
pub(crate) fn unit_of(period: Period, day: u64) -> u64
    requires { day < 2 ^ 49 }
    ensures unit { result ≡ unit_of period day }
    ensures bound { result < 2 ^ 49 }
{
    match period {
        Period::Day => day,
        Period::Week => day / 7,
        Period::Month => month_number(day),
        Period::Quarter => month_number(day) / 3,
        Period::Year => year_number(day),
    }
}

// The days of the units from one up to another, within the years 1 to 9999.
pub(crate) fn days_of_units(period: Period, first: u64, after: u64) -> Days
    requires first { first < 2 ^ 50 }
    requires after { after < 2 ^ 50 }
    ensures { result ≡ days_of_units period first after }
{
    Days {
        from: day_within_years(unit_start(period, first)),
        up_to: day_within_years(unit_start(period, after)),
    }
}

// The first day of a unit.
fn unit_start(period: Period, unit: u64) -> u64
    requires { unit < 2 ^ 50 }
    ensures { result ≡ unit_start period unit }
{
    match period {
        Period::Day => unit,
        Period::Week => 7 * unit,
        Period::Month => month_start(unit / 12 + 1, unit % 12 + 1),
        Period::Quarter => month_start(3 * unit / 12 + 1, 3 * unit % 12 + 1),
        Period::Year => year_start(unit + 1),
    }
}

// A day from 0001-01-01 as one from 1970-01-01, cut at the end of year 9999.
fn day_within_years(day: u64) -> i32
    ensures { result ≡ from_1970 (min day 3652059) }
{
    day.min(DAYS_OF_YEARS) as i32 - DAY_OF_1970
}

// The months from the first of year 1 up to the month of a day.
fn month_number(day: u64) -> u64
    requires { day < 2 ^ 49 }
    ensures number { result ≡ month_number day }
    ensures bound { result < 2 ^ 49 }
{
    let month = month_of(year_of(day), day);
    12 * year_number(day) + month.saturating_sub(1)
}

// The years from the first of year 1 up to the year of a day.
#[tactic(auto, unfolding(lk_types::specs::Calendar::year_of))]
fn year_number(day: u64) -> u64
    requires { day < 2 ^ 49 }
    ensures number { result ≡ year_of day - 1 }
    ensures bound { result < 2 ^ 44 }
{
    year_of(day).saturating_sub(1)
}
