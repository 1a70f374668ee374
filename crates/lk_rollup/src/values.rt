// The cells of lines as values of a table.

ghost use Rattle.std.specs.Prelude.{◌≡◌, IfOk, map};
ghost use Rattle.lk_val.specs.Rounding.{number_of};
ghost use Rattle.lk_types.specs.Expressions.{value_of_num};
ghost use Rattle.lk_semantics.specs.Derived.{value_of_cell};

use lk_types::GroupRow;
use lk_val::{Cell, Items, NoMemory, Num, Value};
use std::alloc::Global;

/// The lines as rows: a cell becomes a number at four places, half away from zero, and null where it is out of range.
pub(crate) fn rows_of(
    alloc: Global,
    lines: Items<GroupRow>,
) -> Result<Items<Items<Value>>, NoMemory>
    ensures { IfOk result (λ rows. rows ≡ map (λ line. map value_of_cell line.cells) lines) }
{
    let mut rows = Items::new(alloc);
    for line in lines.into_vec() {
        let GroupRow { group: _, cells } = line;
        rows.push(values_of(alloc, cells)?)?;
    }
    Ok(rows)
}

fn values_of(alloc: Global, cells: Items<Cell>) -> Result<Items<Value>, NoMemory>
    ensures { IfOk result (λ values. values ≡ map value_of_cell cells) }
{
    let mut values = Items::new(alloc);
    for cell in cells.into_vec() {
        values.push(value_of(cell))?;
    }
    Ok(values)
}

fn value_of(cell: Cell) -> Value
    ensures { result ≡ value_of_cell cell }
{
    match cell {
        Cell::Value(value) => value,
        Cell::Count(count) => parts_value(i128::from(count) * 10_000),
        Cell::Sum(sum) => parts_value(sum),
        Cell::Frac(frac) => number_value(frac.to_num()),
    }
}

// A count of 1/10,000 as a number, null where it is out of range.
fn parts_value(count: i128) -> Value
    ensures { result ≡ value_of_num (number_of count) }
{
    if count < -9_223_372_036_854_775_808 {
        return Value::Null;
    }
    if count > 9_223_372_036_854_775_807 {
        return Value::Null;
    }
    Value::Num(Num(count as i64))
}

fn number_value(number: Option<Num>) -> Value
    ensures { result ≡ value_of_num number }
{
    match number {
        Some(number) => Value::Num(number),
        None => Value::Null,
    }
}
