// What a datagroup watches, lent by the tables.

ghost use Rattle.std.specs.Prelude.{◌≡◌, [], length, slice_index_or};
ghost use Rattle.lk_val.specs.ValueRefs.{value_of_ref};
ghost use Rattle.lk_val.specs.Years.{IsMomentInYears};
ghost use Rattle.lk_types.specs.Calendar.{day_of_moment};
ghost use Rattle.lk_types.specs.Tables.{column_values};
ghost use Rattle.lk_semantics.specs.Measures.{greatest_of};
ghost use Rattle.lk_table.specs.Contents.{rows_of_each};
ghost use Rattle.lk_trigger.specs.Builds.{trigger_value, watched};

use lk_table::{TableVersion, rows};
use lk_types::{Trigger, day_of_moment};
use lk_val::{Num, ValueRef};

// The value of a datagroup, null where it watches nothing.
pub(crate) fn trigger_value(
    tables: &[TableVersion],
    now: i64,
    trigger: Option<Trigger>,
) -> ValueRef<'_>
    requires { IsMomentInYears now }
    ensures { value_of_ref result ≡ trigger_value (rows_of_each tables.now) now trigger }
{
    match trigger {
        Some(trigger) => watched(tables, now, trigger),
        None => ValueRef::Null,
    }
}

// What a trigger watches. A table past the last has no rows.
pub(crate) fn watched(tables: &[TableVersion], now: i64, trigger: Trigger) -> ValueRef<'_>
    requires { IsMomentInYears now }
    ensures { value_of_ref result ≡ watched (rows_of_each tables.now) now trigger }
{
    match trigger {
        Trigger::Max(table, column) => greatest_at(tables, table, column),
        Trigger::Count(table) => ValueRef::Num(Num(i64::from(count_at(tables, table)))),
        Trigger::Today => ValueRef::Day(day_of(now)),
    }
}

// The greatest value of a column of a table.
fn greatest_at(tables: &[TableVersion], table: u32, column: u32) -> ValueRef<'_>
    ensures { value_of_ref result
        ≡ greatest_of (column_values (slice_index_or (rows_of_each tables.now) table []) column) }
{
    match tables.get(table as usize) {
        Some(version) => version.greatest(column),
        None => ValueRef::Null,
    }
}

// The number of rows of a table.
fn count_at(tables: &[TableVersion], table: u32) -> u32
    ensures { result ≡ length (slice_index_or (rows_of_each tables.now) table []) }
{
    match tables.get(table as usize) {
        Some(version) => rows(version).len(),
        None => 0,
    }
}

// The day of a moment.
#[tactic(auto, unfolding(lk_types::specs::Calendar::day_of_moment))]
fn day_of(moment: i64) -> i32
    requires { IsMomentInYears moment }
    ensures { result ≡ day_of_moment moment }
{
    day_of_moment(moment) as i32
}
