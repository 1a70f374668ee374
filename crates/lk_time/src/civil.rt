// Days, counted from 1970-01-01, and the first days of their weeks, months, quarters and years.

ghost use Rattle.std.specs.Prelude.{ℕ, ◌≡◌, ◌+◌, ◌-◌, ◌%◌, ◌≤◌, ◌≤ℤ◌, pos, neg_ℤ, unsigned_abs};
ghost use Rattle.std.specs.Int.{IsInRange};
ghost use Rattle.jiff_core.specs.Date.{epoch_day};
ghost use Rattle.jiff_core.specs.Weekday.{monday_zero};
ghost use Rattle.lk_types.specs.Calendar.{from_year_one, from_1970, year_of, year_start, month_of, month_start, day_of_month};
ghost use Rattle.lk_types.specs.Timeframes.{timeframe_of, quarter_start};
ghost use Rattle.lk_types.specs.declared.schema.Frame.TheVariants as frame;
ghost use Rattle.lk_val.specs.declared.value.Value.TheVariants as value;
ghost use Rattle.lk_val.specs.Years.{IsDayInYears};

use jiff_core::civil::{Date, Weekday};

// The date of a day, with its year, month and day of the month.
pub(crate) fn date_of(day: i32) -> Date
    requires { IsDayInYears day }
    ensures epoch { epoch_day result ≡ day }
    ensures years { pos 1 ≤ℤ result.year }
    ensures year { result.year ≡ pos (year_of (from_year_one day)) }
    ensures month { result.month ≡ month_of (year_of (from_year_one day)) (from_year_one day) }
    ensures day { result.day ≡ day_of_month (from_year_one day) }
    ensures days { IsInRange 1 31 result.day }
{
    date_at(day)
}

fn date_at(day: i32) -> Date
    requires { IsDayInYears day }
    ensures { epoch_day result ≡ day }
{
    Date::from_days_since_min((day + 4_371_587) as u32)
}

// The Monday at or before a day.
pub(crate) fn week_start(day: i32) -> i32
    requires { IsDayInYears day }
    ensures start { value.Day result ≡ timeframe_of frame.Week (value.Day day) }
    ensures in_range { IsDayInYears result }
{
    day - i32::from(weekday_of(day).index())
}

// The weekday of a day.
pub(crate) fn weekday_of(day: i32) -> Weekday
    requires { IsDayInYears day }
    ensures { monday_zero result ≡ from_year_one day % 7 }
{
    date_of(day).weekday()
}

// The first day of a day's month.
pub(crate) fn month_start(day: i32) -> i32
    requires { IsDayInYears day }
    ensures start { value.Day result ≡ timeframe_of frame.Month (value.Day day) }
    ensures in_range { IsDayInYears result }
{
    let date = date_of(day);
    first_day(date.year, date.month)
}

// The first day of a day's quarter.
pub(crate) fn quarter_start(day: i32) -> i32
    requires { IsDayInYears day }
    ensures start { value.Day result ≡ timeframe_of frame.Quarter (value.Day day) }
    ensures in_range { IsDayInYears result }
{
    let date = date_of(day);
    first_day(date.year, 3 * ((date.month - 1) / 3) + 1)
}

// The first day of a day's year.
pub(crate) fn year_start(day: i32) -> i32
    requires { IsDayInYears day }
    ensures start { value.Day result ≡ timeframe_of frame.Year (value.Day day) }
    ensures in_range { IsDayInYears result }
{
    first_day(date_of(day).year, 1)
}

// The first day of a month.
fn first_day(year: i16, month: u8) -> i32
    requires first { pos 1 ≤ℤ year }
    requires last { year ≤ℤ pos 9999 }
    requires month { IsInRange 1 12 month }
    ensures start { result ≡ from_1970 (month_start (unsigned_abs year) month) }
    ensures in_range { IsDayInYears result }
{
    Date::constrain(year, month, 1).to_unix_epoch_day()
}
