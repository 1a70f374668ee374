ghost use Rattle.std.specs.Prelude.{◌≡◌, ◌≤◌, ◌<◌, ◌+◌, ◌+ℤ◌, ◌^◌, ◌≤ℤ◌, ◌<ℤ◌, pos, neg_ℤ};
ghost use Rattle.lk_semantics.specs.Measures.{average_cell, greater, lesser};
ghost use Rattle.lk_semantics.specs.Rollups.{cell_of_partial, merged, no_partial};
ghost use Rattle.lk_agg.specs.Finishing.{cell_of, kept_of};

use crate::columns::{is_greater, is_lesser};
use lk_types::{Op, Partial};
use lk_val::{Cell, Frac, Value};

// The parts of a measure with its type: what a group's column comes to.
#[derive(Drop)]
pub(crate) struct Part {
    pub(crate) op: Op,
    pub(crate) parts: Partial,
}

/// The cell of a measure from its parts, where it can be had from them.
pub fn cell_of_partial(op: Op, parts: Partial) -> Cell
    ensures { result ≡ cell_of_partial op parts }
{
    match op {
        Op::Count => Cell::Count(parts.count),
        Op::Sum | Op::SumDistinct => Cell::Sum(parts.sum),
        Op::Average | Op::AverageDistinct => average_of(parts.sum, parts.values),
        Op::Min => Cell::Value(parts.least),
        Op::Max => Cell::Value(parts.most),
        Op::CountDistinct => Cell::Count(parts.distinct),
        Op::Number => Cell::Value(Value::Null),
    }
}

/// Puts the parts of two groups without a common pair together. The number of different values stays that of `into`,
/// since numbers of different values can't be added.
pub fn merge_partials(into: &mut Partial, from: Partial)
    requires low { neg_ℤ (pos (2 ^ 127)) ≤ℤ (into.old.sum +ℤ from.sum) }
    requires high { (into.old.sum +ℤ from.sum) <ℤ pos (2 ^ 127) }
    requires counts { into.old.count + from.count < 2 ^ 64 }
    requires values { into.old.values + from.values < 2 ^ 64 }
    ensures { into.new ≡ merged into.old from }
{
    into.count += from.count;
    into.sum += from.sum;
    into.values += from.values;
    keep_lesser(&mut into.least, from.least);
    keep_greater(&mut into.most, from.most);
}

#[tactic(auto, using(crate::proofs::ColumnLaws::lesser_by))]
fn keep_lesser(value: &mut Value, other: Value)
    ensures { value.new ≡ lesser value.old other }
{
    if !is_lesser(value.as_ref(), other.as_ref()) {
        *value = other;
    }
}

#[tactic(auto, using(crate::proofs::ColumnLaws::greater_by))]
fn keep_greater(value: &mut Value, other: Value)
    ensures { value.new ≡ greater value.old other }
{
    if !is_greater(value.as_ref(), other.as_ref()) {
        *value = other;
    }
}

// No part of a measure.
pub(crate) fn no_partial() -> Partial
    ensures { result ≡ no_partial }
{
    Partial {
        count: 0,
        sum: 0,
        values: 0,
        least: Value::Null,
        most: Value::Null,
        distinct: 0,
    }
}

pub(crate) fn cell_of(part: Part) -> Cell
    ensures { result ≡ cell_of part }
{
    let Part { op, parts } = part;
    cell_of_partial(op, parts)
}

// What a rollup keeps. A measure with a key of its own stands in none.
pub(crate) fn kept_of(part: Part) -> Partial
    ensures { result ≡ kept_of part }
{
    let Part { op, parts } = part;
    match op {
        Op::SumDistinct | Op::AverageDistinct => no_partial(),
        _ => parts,
    }
}

fn average_of(sum: i128, count: u64) -> Cell
    ensures { result ≡ average_cell sum count }
{
    if count == 0 {
        Cell::Value(Value::Null)
    } else {
        Cell::Frac(Frac::new(sum, 10000 * i128::from(count)))
    }
}
