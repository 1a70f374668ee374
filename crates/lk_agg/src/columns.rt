ghost use Rattle.std.specs.Prelude.{◌≡◌, IfOk, OnOk, map};
ghost use Rattle.lk_semantics.specs.Measures.{lesser, greater, unless_counted};
ghost use Rattle.std.specs.Ordering.{is_lt, is_gt};
ghost use Rattle.lk_val.specs.ValueRefs.{value_of_ref};
ghost use Rattle.lk_val.specs.Values.{null_last_cmp, value_cmp};
ghost use Rattle.lk_agg.specs.Columns.{fresh, with_cells, with_entry, with_given, with_pair, with_row, with_value};
ghost use Rattle.lk_agg.specs.Given.{given_cells, key_value_of};

use crate::given::{Given, KeyRef, given_at};
use crate::kept::Kept;
use crate::sorted::{Growth, Sorted};
use lk_types::Op;
use lk_val::{Items, NoMemory, Value, ValueRef};
use std::alloc::Global;
use std::cmp::Ordering;
use std::mem::size_of;

// What a group keeps for a measure: its rows where it goes over keys, its different values, or its least or greatest
// value.
#[derive(Drop)]
pub(crate) enum Column {
    Count(Kept),
    Sum(Kept),
    SumDistinct(Kept),
    Average(Kept),
    AverageDistinct(Kept),
    Different(Sorted<Value>),
    Least(Value),
    Greatest(Value),
    Nothing,
}

// A group of many takes this for each measure, beside its pairs.
const _: () = prove!(size_of::<Column>() == 48);

// A column for each measure, before any row.
pub(crate) fn fresh_columns(alloc: Global, ops: &[Op]) -> Result<Items<Column>, NoMemory>
    ensures { IfOk result (λ columns. columns ≡ map fresh ops.now) }
{
    let mut columns = Items::from_vec(Vec::with_capacity(alloc, ops.len())?);
    for op in ops {
        columns.push(fresh(alloc, *op))?;
    }
    Ok(columns)
}

fn fresh(alloc: Global, op: Op) -> Column
    ensures { result ≡ fresh op }
{
    match op {
        Op::Count => Column::Count(Kept::new(alloc)),
        Op::Sum => Column::Sum(Kept::new(alloc)),
        Op::SumDistinct => Column::SumDistinct(Kept::new(alloc)),
        Op::Average => Column::Average(Kept::new(alloc)),
        Op::AverageDistinct => Column::AverageDistinct(Kept::new(alloc)),
        Op::CountDistinct => Column::Different(Sorted::new(alloc)),
        Op::Min => Column::Least(Value::Null),
        Op::Max => Column::Greatest(Value::Null),
        Op::Number => Column::Nothing,
    }
}

// The columns with what one more row gives to each.
pub(crate) fn with_cells(
    alloc: Global,
    columns: Items<Column>,
    cells: Given<'_>,
    place: u64,
) -> Result<Items<Column>, NoMemory>
    ensures { IfOk result (λ more. more ≡ with_cells 0 place (given_cells cells.entry) columns) }
{
    let mut all = columns.into_vec();
    for i in 0..all.len() {
        add_given(alloc, &mut all[i], given_at(cells, i), place)?;
    }
    Ok(Items::from_vec(all))
}

fn add_given(
    alloc: Global,
    column: &mut Column,
    given: KeyRef<'_>,
    place: u64,
) -> Result<(), NoMemory>
    ensures { OnOk result (column.new ≡ with_given place (key_value_of given.entry) column.old) }
{
    if given.counts {
        add_entry(alloc, column, given, place)?;
    }
    Ok(())
}

#[tactic(auto, using(crate::proofs::ColumnLaws::lesser_by, crate::proofs::ColumnLaws::greater_by))]
fn add_entry(
    alloc: Global,
    column: &mut Column,
    given: KeyRef<'_>,
    place: u64,
) -> Result<(), NoMemory>
    ensures { OnOk result (column.new ≡ with_entry (place, key_value_of given.entry) column.old) }
{
    match column {
        Column::Count(kept) => add_row(alloc, kept, Op::Count, given),
        Column::Sum(kept) => add_row(alloc, kept, Op::Sum, given),
        Column::SumDistinct(kept) => add_row(alloc, kept, Op::SumDistinct, given),
        Column::Average(kept) => add_row(alloc, kept, Op::Average, given),
        Column::AverageDistinct(kept) => add_row(alloc, kept, Op::AverageDistinct, given),
        Column::Different(values) => add_value(alloc, values, given.value),
        Column::Least(value) => {
            if is_lesser(given.value, value.as_ref()) {
                *value = given.value.to_value(alloc)?;
            }
            Ok(())
        }
        Column::Greatest(value) => {
            if is_greater(given.value, value.as_ref()) {
                *value = given.value.to_value(alloc)?;
            }
            Ok(())
        }
        Column::Nothing => Ok(()),
    }
}

// Adds the pair of a row with a key, and tallies one without.
fn add_row(alloc: Global, kept: &mut Kept, op: Op, given: KeyRef<'_>) -> Result<(), NoMemory>
    ensures { OnOk result (kept.new ≡ with_row op (key_value_of given.entry) kept.old) }
{
    match given.key {
        None => kept.tally(alloc, given.value),
        Some(key) => add_pair(alloc, kept, op, key, given.value),
    }
}

fn add_pair(
    alloc: Global,
    kept: &mut Kept,
    op: Op,
    key: ValueRef<'_>,
    value: ValueRef<'_>,
) -> Result<(), NoMemory>
    ensures { OnOk result (kept.new ≡ record kept.old {
      pairs = with_pair op (value_of_ref key.entry) (value_of_ref value.entry) kept.old.pairs;
    }) }
{
    if key.is_null() {
        return Ok(());
    }
    kept.insert(alloc, key, unless_counted(op, value))
}

#[tactic(auto, using(crate::proofs::KeptLaws::values_exact))]
fn add_value(alloc: Global, values: &mut Sorted<Value>, value: ValueRef<'_>) -> Result<(), NoMemory>
    ensures { OnOk result (values.new ≡ with_value (value_of_ref value.entry) values.old) }
{
    if !value.is_null() {
        values.insert(value.to_value(alloc)?, Growth::Half)?;
    }
    Ok(())
}

// The value of a pair: what is counted is one fixed value.
fn unless_counted(op: Op, value: ValueRef<'_>) -> ValueRef<'_>
    ensures { value_of_ref result ≡ unless_counted op (value_of_ref value.entry) }
{
    match op {
        Op::Count => ValueRef::Null,
        _ => value,
    }
}

// Whether the first value is the lesser one, null being neither.
pub(crate) fn is_lesser(a: ValueRef<'_>, b: ValueRef<'_>) -> bool
    ensures { result ≡ is_lt (null_last_cmp (value_of_ref a.entry) (value_of_ref b.entry)) }
{
    if a.is_null() {
        false
    } else {
        b.is_null() || a.cmp(b) == Ordering::Less
    }
}

// Whether the first value is the greater one: null comes first.
pub(crate) fn is_greater(a: ValueRef<'_>, b: ValueRef<'_>) -> bool
    ensures { result ≡ is_gt (value_cmp (value_of_ref a.entry) (value_of_ref b.entry)) }
{
    a.cmp(b) == Ordering::Greater
}
