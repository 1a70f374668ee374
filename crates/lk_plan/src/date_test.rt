// The conditions of tests on days and moments.

ghost use Rattle.std.specs.Prelude.{◌≡◌, IfOk};
ghost use Rattle.lk_plan.specs.TestConditions.{before_condition, begins_late, compares_with_day, date_condition, day_literal, ends_early, from_condition, span_condition};

use crate::building::{compare, is_null, no, within};
use lk_types::{Comparison, Expr, Kind, Test};
use lk_val::{NoMemory, Value};
use std::alloc::Global;

// The first and the last day of the years 1 to 9999, counted from 1970-01-01.
const FIRST_DAY: i32 = -719_162;

const LAST_DAY: i32 = 2_932_896;

// How many seconds a day has.
const DAY: i64 = 86_400;

pub(crate) fn date_condition(
    alloc: Global,
    kind: Kind,
    x: &Expr,
    test: &Test,
) -> Result<Expr, NoMemory>
    ensures { IfOk result (λ e. e ≡ date_condition kind x.now test.now) }
{
    match test {
        Test::Null | Test::Empty => is_null(alloc, x),
        Test::In(days) => span_condition(alloc, kind, x, Some(days.from), Some(days.up_to)),
        Test::Before(days) => span_condition(alloc, kind, x, None, Some(days.from)),
        Test::After(days) => span_condition(alloc, kind, x, Some(days.from), None),
        Test::FromTo(first, last) => {
            span_condition(alloc, kind, x, Some(first.from), Some(last.from))
        }
        _ => no(alloc),
    }
}

// The days from one up to another, each counted from 1970-01-01.
fn span_condition(
    alloc: Global,
    kind: Kind,
    x: &Expr,
    from: Option<i32>,
    up_to: Option<i32>,
) -> Result<Expr, NoMemory>
    ensures { IfOk result (λ e. e ≡ span_condition kind x.now from up_to) }
{
    if begins_late(from) || ends_early(up_to) {
        return no(alloc);
    }
    let from = from_condition(alloc, kind, x, from)?;
    let before = before_condition(alloc, kind, x, up_to)?;
    within(alloc, x, from, before)
}

fn begins_late(from: Option<i32>) -> bool
    ensures { result ≡ begins_late from }
{
    match from {
        None => false,
        Some(day) => LAST_DAY < day,
    }
}

fn ends_early(up_to: Option<i32>) -> bool
    ensures { result ≡ ends_early up_to }
{
    match up_to {
        None => false,
        Some(day) => day < FIRST_DAY,
    }
}

fn from_condition(
    alloc: Global,
    kind: Kind,
    x: &Expr,
    from: Option<i32>,
) -> Result<Option<Expr>, NoMemory>
    ensures { IfOk result (λ e. e ≡ from_condition kind x.now from) }
{
    match from {
        Some(day) if FIRST_DAY <= day => {
            Ok(Some(compares_with_day(alloc, kind, x, Comparison::AtLeast, day)?))
        }
        _ => Ok(None),
    }
}

fn before_condition(
    alloc: Global,
    kind: Kind,
    x: &Expr,
    up_to: Option<i32>,
) -> Result<Option<Expr>, NoMemory>
    ensures { IfOk result (λ e. e ≡ before_condition kind x.now up_to) }
{
    match up_to {
        Some(day) if day <= LAST_DAY => {
            Ok(Some(compares_with_day(alloc, kind, x, Comparison::Less, day)?))
        }
        _ => Ok(None),
    }
}

fn compares_with_day(
    alloc: Global,
    kind: Kind,
    x: &Expr,
    comparison: Comparison,
    day: i32,
) -> Result<Expr, NoMemory>
    ensures { IfOk result (λ e. e ≡ compares_with_day kind x.now comparison day) }
{
    compare(alloc, comparison, x, day_literal(kind, day))
}

// A day beside days, and its midnight beside moments.
fn day_literal(kind: Kind, day: i32) -> Value
    ensures { result ≡ day_literal kind day }
{
    match kind {
        Kind::Moment => Value::Moment(i64::from(day) * DAY),
        _ => Value::Day(day),
    }
}
