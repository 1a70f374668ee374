ghost use Rattle.std.specs.Prelude.{◌≡◌, ◌<◌, ◌≤◌};
ghost use Rattle.lk_cell.specs.Days.{day_cell, day_of, day_of_date, is_date, next_month};

use crate::pieces::two_digits;
use lk_types::{month_start, year_start};

/// The day that a cell writes as `YYYY-MM-DD`, in days from 1970-01-01. (ISO 8601)
pub fn read_day(text: &[u8]) -> Option<i32>
    ensures { result ≡ day_cell text.now }
{
    match text {
        [c, e, y, r, b'-', m, n, b'-', d, g] => {
            let century = two_digits(*c, *e)?;
            let year = two_digits(*y, *r)?;
            let month = two_digits(*m, *n)?;
            let day = two_digits(*d, *g)?;
            day_of(100 * century + year, month, day)
        }
        _ => None,
    }
}

// The day of a date, where there is such a date.
#[tactic(auto, unfolding(crate::specs::Days::day_of))]
fn day_of(year: u32, month: u32, day: u32) -> Option<i32>
    requires year { year < 10000 }
    requires month { month < 100 }
    requires day { day < 100 }
    ensures { result ≡ day_of year month day }
{
    let (year, month, day) = (u64::from(year), u64::from(month), u64::from(day));
    if year < 1 || month < 1 || month > 12 || day < 1 {
        return None;
    }
    let date = month_start(year, month) + (day - 1);
    if date < next_month(year, month) {
        Some(date as i32 - 719_162)
    } else {
        None
    }
}

// The first day of the month after a month.
fn next_month(year: u64, month: u64) -> u64
    requires year { year < 10000 }
    requires month { month < 100 }
    ensures { result ≡ next_month year month }
{
    if month == 12 {
        year_start(year + 1)
    } else {
        month_start(year, month + 1)
    }
}
