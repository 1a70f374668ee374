ghost use Rattle.std.specs.Prelude.{◌≡◌, ◌||◌, IfOk, map, not, option_map, true};
ghost use Rattle.std.specs.List.{list_all};
ghost use Rattle.lk_types.specs.Dates.{is_row_dated};
ghost use Rattle.lk_types.specs.declared.rows.Joined.{Joined};
ghost use Rattle.lk_types.specs.Expressions.{value_of};
ghost use Rattle.lk_semantics.specs.Answers.{has_part, is_placed, key_of, measure_at, no_measure, optional_value};
ghost use Rattle.lk_semantics.specs.DatedRows.{is_condition_dated};
ghost use Rattle.lk_semantics.specs.Joins.{part_at};
ghost use Rattle.lk_semantics.specs.Measures.{uses_key};
ghost use Rattle.lk_filter.specs.PlacedModel.{placed_explore, placed_measure};
ghost use Rattle.lk_gather.specs.Dims.{is_fine_field};
ghost use Rattle.lk_gather.specs.Measures.{AreTaken, IsTaken, has_wanted, is_fine_explore, is_fine_measure, is_fine_taken, taken_of};

use crate::dims::{FieldTest, passes_each, tests_of};
use lk_eval::eval_over;
use lk_exec::LentRow;
use lk_types::{Explore, Expr, KeyValue, Measure, Op};
use lk_val::{Items, NoMemory, Value};
use std::alloc::Global;

// What a row gives to a measure, ready to be computed: the key, if there is one, the value, the tests, and the view that
// has to be there where keys are places.
#[derive(Drop)]
pub(crate) struct Taken<'a> {
    pub(crate) key: Option<&'a Expr>,
    pub(crate) value: Option<&'a Expr>,
    pub(crate) tests: Items<FieldTest<'a>>,
    pub(crate) wanted: Option<u32>,
}

/// What rows give at a moment to the measures of some numbers, in order.
#[tactic(auto, using(crate::proofs::MeasureLaws::measures_fine))]
pub(crate) fn taken_by<'a>(
    alloc: Global,
    explore: &'a Explore,
    numbers: &[u32],
    now: i64,
) -> Result<Items<Taken<'a>>, NoMemory>
    requires { is_fine_explore explore.now ≡ true }
    ensures { IfOk result (AreTaken (placed_explore now explore.now) numbers.now) }
{
    let mut taken = Items::new(alloc);
    for number in numbers {
        taken.push(taken_at(alloc, explore, *number, now)?)?;
    }
    Ok(taken)
}

fn taken_at<'a>(
    alloc: Global,
    explore: &'a Explore,
    number: u32,
    now: i64,
) -> Result<Taken<'a>, NoMemory>
    requires explore { is_fine_explore explore.now ≡ true }
    requires measures { list_all is_fine_measure explore.now.measures ≡ true }
    ensures { IfOk result (IsTaken explore.now (placed_measure now (measure_at explore.now number))) }
{
    match explore.measures.as_slice().get(number as usize) {
        Some(measure) => taken_of(alloc, explore, measure, now),
        None => Ok(taken_by_none(alloc, explore)),
    }
}

// What a number past the measures counts: the rows of the base view.
fn taken_by_none<'a>(alloc: Global, explore: &'a Explore) -> Taken<'a>
    requires { is_fine_explore explore.now ≡ true }
    ensures { IsTaken explore.now no_measure result }
{
    let key = key_of_part(explore, 0);
    Taken {
        key,
        value: None,
        tests: Items::new(alloc),
        wanted: wanted(Op::Count, key, 0),
    }
}

#[tactic(auto, using(crate::proofs::MeasureLaws::fields_fine))]
fn taken_of<'a>(
    alloc: Global,
    explore: &'a Explore,
    measure: &'a Measure,
    now: i64,
) -> Result<Taken<'a>, NoMemory>
    requires explore { is_fine_explore explore.now ≡ true }
    requires measure { is_fine_measure measure.now ≡ true }
    ensures { IfOk result (IsTaken explore.now (placed_measure now measure.now)) }
{
    let key = key_of(explore, measure);
    Ok(Taken {
        key,
        value: measure.value.as_ref(),
        tests: tests_of(alloc, explore, measure.filters.as_slice(), now)?,
        wanted: wanted(measure.op, key, measure.part),
    })
}

// The key that a measure is taken over: `sql_distinct_key`, or the primary key of its view.
fn key_of<'a>(explore: &'a Explore, measure: &'a Measure) -> Option<&'a Expr>
    ensures { option_map (λ e. e.now) result ≡ key_of explore.now measure.now }
{
    match measure.op {
        Op::SumDistinct | Op::AverageDistinct => measure.key.as_ref(),
        _ => key_of_part(explore, measure.part),
    }
}

fn key_of_part(explore: &Explore, part: u32) -> Option<&Expr>
    ensures { option_map (λ e. e.now) result ≡ (part_at explore.now part).key }
{
    match explore.parts.as_slice().get(part as usize) {
        Some(part) => part.key.as_ref(),
        None => None,
    }
}

// The view that has to be there: that of a measure over keys which has none, so that places are its keys.
fn wanted(op: Op, key: Option<&Expr>, part: u32) -> Option<u32>
    ensures { (row : Joined) → has_wanted result row
        ≡ (not (is_placed op (option_map (λ e. e.now) key.entry)) || has_part part row) }
{
    match key {
        None if uses_key(op) => Some(part),
        _ => None,
    }
}

fn uses_key(op: Op) -> bool
    ensures { result ≡ uses_key op }
{
    match op {
        Op::Count | Op::Sum | Op::Average | Op::SumDistinct | Op::AverageDistinct => true,
        Op::CountDistinct | Op::Min | Op::Max | Op::Number => false,
    }
}

/// What a row gives to some measures, in order.
pub(crate) fn cells_of(
    alloc: Global,
    taken: &[Taken<'_>],
    row: &LentRow<'_>,
) -> Result<Items<KeyValue>, NoMemory>
    requires row { is_row_dated row.now ≡ true }
    requires fine { list_all is_fine_taken taken.now ≡ true }
    ensures { IfOk result (λ cells. cells ≡ map (λ t. taken_of t row.now) taken.now) }
{
    let mut cells = Items::new(alloc);
    for one in taken {
        cells.push(cell_of(alloc, one, row)?)?;
    }
    Ok(cells)
}

fn cell_of(alloc: Global, taken: &Taken<'_>, row: &LentRow<'_>) -> Result<KeyValue, NoMemory>
    requires row { is_row_dated row.now ≡ true }
    requires fine { is_fine_taken taken.now ≡ true }
    ensures { IfOk result (λ cell. cell ≡ taken_of taken.now row.now) }
{
    Ok(KeyValue {
        key: key_on(alloc, taken.key, row)?,
        value: value_on(alloc, taken.value, row)?,
        counts: passes_each(alloc, taken.tests.as_slice(), row)? && has_wanted(taken.wanted, row),
    })
}

fn key_on(alloc: Global, key: Option<&Expr>, row: &LentRow<'_>) -> Result<Option<Value>, NoMemory>
    requires row { is_row_dated row.now ≡ true }
    requires key { is_condition_dated (option_map (λ e. e.now) key) ≡ true }
    ensures { IfOk result (λ value. value ≡ option_map (λ e. value_of e.now row.now) key.entry) }
{
    match key {
        None => Ok(None),
        Some(key) => Ok(Some(eval_over(alloc, key, row)?)),
    }
}

fn value_on(alloc: Global, value: Option<&Expr>, row: &LentRow<'_>) -> Result<Value, NoMemory>
    requires row { is_row_dated row.now ≡ true }
    requires value { is_condition_dated (option_map (λ e. e.now) value) ≡ true }
    ensures { IfOk result (λ v. v ≡ optional_value (option_map (λ e. e.now) value.entry) row.now) }
{
    match value {
        None => Ok(Value::Null),
        Some(value) => eval_over(alloc, value, row),
    }
}

fn has_wanted(wanted: Option<u32>, row: &LentRow<'_>) -> bool
    ensures { result ≡ has_wanted wanted row.now }
{
    match wanted {
        None => true,
        Some(part) => row.has_part(part),
    }
}
