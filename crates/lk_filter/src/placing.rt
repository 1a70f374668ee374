ghost use Rattle.std.specs.Prelude.{◌≡◌, ◌<◌, ◌^◌, map, IfOk};
ghost use Rattle.lk_types.specs.Filters.{placed, placed_test};

use crate::unit::{days_of_units, today_at, unit_of};
use lk_types::{Filter, Period, Test};
use lk_val::{Copied, Items, NoMemory};
use std::alloc::Global;

/// The filter at a moment: each relative date becomes its span of days, cut at the years 1 to 9999. `now` counts
/// seconds from 1970-01-01 00:00:00 UTC. (Looker, filter expressions: date)
pub fn place(alloc: Global, f: &Filter, now: i64) -> Result<Filter, NoMemory>
    ensures { IfOk result (λ made. made ≡ placed now f.now) }
{
    let today = today_at(now);
    Ok(Filter {
        include: place_tests(alloc, f.include.as_slice(), today)?,
        exclude: place_tests(alloc, f.exclude.as_slice(), today)?,
        relative: false,
    })
}

fn place_tests(alloc: Global, tests: &[Test], today: u64) -> Result<Items<Test>, NoMemory>
    requires { today < 2 ^ 49 }
    ensures { IfOk result (λ made. made ≡ map (placed_test today) tests.now) }
{
    let mut placed_tests = Items::new(alloc);
    for test in tests {
        placed_tests.push(place_test(alloc, test, today)?)?;
    }
    Ok(placed_tests)
}

// A test with its relative date as a span of days; today is a day from 0001-01-01.
fn place_test(alloc: Global, test: &Test, today: u64) -> Result<Test, NoMemory>
    requires { today < 2 ^ 49 }
    ensures { IfOk result (λ made. made ≡ placed_test today test.now) }
{
    Ok(match test {
        Test::Today => Test::In(days_of_units(Period::Day, today, today + 1)),
        Test::Yesterday => Test::In(days_of_units(Period::Day, today.saturating_sub(1), today)),
        Test::This(period) => {
            let unit = unit_of(*period, today);
            Test::In(days_of_units(*period, unit, unit + 1))
        }
        Test::Last(period) => {
            let unit = unit_of(*period, today);
            Test::In(days_of_units(*period, unit.saturating_sub(1), unit))
        }
        Test::Recent(count, period) => {
            let after = unit_of(*period, today) + 1;
            Test::In(days_of_units(*period, after.saturating_sub(u64::from(*count)), after))
        }
        Test::Ago(count, period) => {
            let unit = unit_of(*period, today);
            let back = u64::from(*count);
            Test::In(days_of_units(
                *period,
                unit.saturating_sub(back),
                (unit + 1).saturating_sub(back),
            ))
        }
        _ => test.copied(alloc)?,
    })
}
