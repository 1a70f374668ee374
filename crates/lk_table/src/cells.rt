ghost use Rattle.std.specs.Prelude.{◌≡◌, ◌<◌, ◌++◌, ◌∷◌, [], true, OnOk, IfOk, length};
ghost use Rattle.lk_val.specs.ValueRefs.{value_of_ref};
ghost use Rattle.lk_types.specs.Tables.{is_of_kind};
ghost use Rattle.lk_types.specs.declared.schema.Kind.TheVariants as kind;
ghost use Rattle.lk_region.specs.Regions.{KeepsTexts};
ghost use Rattle.lk_table.specs.Contents.{cell_at};
ghost use Rattle.lk_table.specs.Columns.{AreText, IsMark, IsMarked, day_value, kind_in, moment_value, number_value, text_value, truth_value, values_in};

use crate::column::Column;
use lk_region::{Mark, Region, SealedRegion};
use lk_val::{NoMemory, Num, ValueRef, as_text};

/// Adds a cell at the end of a column, and its text to the region.
pub(crate) fn push_cell(
    region: &mut Region,
    column: &mut Column,
    cell: ValueRef<'_>,
) -> Result<(), NoMemory>
    requires kind { is_of_kind (kind_in column.old) (value_of_ref cell) ≡ true }
    requires marked { IsMarked (length region.old) column.old }
    requires texts { AreText region.old }
    ensures values { OnOk result
        (values_in region.new column.new ≡ values_in region.old column.old ++ value_of_ref cell.entry ∷ []) }
    ensures kind { kind_in column.new ≡ kind_in column.old }
    ensures marked { IsMarked (length region.new) column.new }
    ensures texts { AreText region.new }
    ensures kept { KeepsTexts region.old region.new }
{
    match column {
        Column::Text(cells) => cells.push(mark_of(region, cell)?),
        Column::Number(counts) => counts.push(number_of(cell)),
        Column::Truth(cells) => cells.push(truth_of(cell)),
        Column::Day(cells) => cells.push(day_of(cell)),
        Column::Moment(counts) => counts.push(moment_of(cell)),
    }
}

// The mark of a text, which is added to the region; none of null.
fn mark_of(region: &mut Region, cell: ValueRef<'_>) -> Result<Option<Mark>, NoMemory>
    requires kind { is_of_kind kind.Text (value_of_ref cell) ≡ true }
    requires texts { AreText region.old }
    ensures value { IfOk result (λ mark. text_value region.new mark ≡ value_of_ref cell.entry) }
    ensures marked { IfOk result (λ mark. IsMark (length region.new) mark) }
    ensures texts { AreText region.new }
    ensures kept { KeepsTexts region.old region.new }
{
    match cell {
        ValueRef::Text(text) => Ok(Some(region.intern(text.as_bytes())?)),
        _ => Ok(None),
    }
}

fn number_of(cell: ValueRef<'_>) -> Option<i64>
    requires { is_of_kind kind.Number (value_of_ref cell) ≡ true }
    ensures { number_value result ≡ value_of_ref cell.entry }
{
    match cell {
        ValueRef::Num(number) => Some(number.0),
        _ => None,
    }
}

fn truth_of(cell: ValueRef<'_>) -> Option<bool>
    requires { is_of_kind kind.Truth (value_of_ref cell) ≡ true }
    ensures { truth_value result ≡ value_of_ref cell.entry }
{
    match cell {
        ValueRef::Truth(truth) => Some(truth),
        _ => None,
    }
}

fn day_of(cell: ValueRef<'_>) -> Option<i32>
    requires { is_of_kind kind.Day (value_of_ref cell) ≡ true }
    ensures { day_value result ≡ value_of_ref cell.entry }
{
    match cell {
        ValueRef::Day(day) => Some(day),
        _ => None,
    }
}

fn moment_of(cell: ValueRef<'_>) -> Option<i64>
    requires { is_of_kind kind.Moment (value_of_ref cell) ≡ true }
    ensures { moment_value result ≡ value_of_ref cell.entry }
{
    match cell {
        ValueRef::Moment(moment) => Some(moment),
        _ => None,
    }
}

/// The cell of a column in a row.
#[tactic(auto, using(crate::proofs::RowLaws::value_at, crate::proofs::RowLaws::row_within))]
pub(crate) fn cell_in<'a>(region: &'a SealedRegion, column: &'a Column, row: usize) -> ValueRef<'a>
    requires row { row < length (values_in region.now column.now) }
    requires marked { IsMarked (length region.now) column.now }
    requires texts { AreText region.now }
    ensures { value_of_ref result ≡ cell_at (values_in region.now column.now) row }
{
    match column {
        Column::Text(cells) => text_ref(region, cells.get(row)),
        Column::Number(counts) => number_ref(counts.get(row)),
        Column::Truth(cells) => truth_ref(cells.get(row)),
        Column::Day(cells) => day_ref(cells.get(row)),
        Column::Moment(counts) => moment_ref(counts.get(row)),
    }
}

fn text_ref(region: &SealedRegion, mark: Option<Mark>) -> ValueRef<'_>
    requires marked { IsMark (length region.now) mark }
    requires texts { AreText region.now }
    ensures { value_of_ref result ≡ text_value region.now mark }
{
    match mark {
        None => ValueRef::Null,
        Some(mark) => match as_text(region.text(mark)) {
            Some(text) => ValueRef::Text(text),
            // A region's texts are UTF-8.
            None => unreachable!(),
        },
    }
}

fn number_ref(number: Option<i64>) -> ValueRef<'static>
    ensures { value_of_ref result ≡ number_value number }
{
    match number {
        None => ValueRef::Null,
        Some(number) => ValueRef::Num(Num(number)),
    }
}

fn truth_ref(truth: Option<bool>) -> ValueRef<'static>
    ensures { value_of_ref result ≡ truth_value truth }
{
    match truth {
        None => ValueRef::Null,
        Some(truth) => ValueRef::Truth(truth),
    }
}

fn day_ref(day: Option<i32>) -> ValueRef<'static>
    ensures { value_of_ref result ≡ day_value day }
{
    match day {
        None => ValueRef::Null,
        Some(day) => ValueRef::Day(day),
    }
}

fn moment_ref(moment: Option<i64>) -> ValueRef<'static>
    ensures { value_of_ref result ≡ moment_value moment }
{
    match moment {
        None => ValueRef::Null,
        Some(moment) => ValueRef::Moment(moment),
    }
}
