ghost use Rattle.std.specs.Prelude.{◌≡◌, ◌++◌, ◌∷◌, [], All, IfOk, IfSome, OnOk, if◌then◌else◌};
ghost use Rattle.std.specs.Prelude.{filter, map};
ghost use Rattle.lk_semantics.specs.Answers.{passes_cell};
ghost use Rattle.lk_lines.specs.Sources.{column_cells, left_behind, next_cell, passes_each};
ghost use Rattle.lk_lines.specs.Lines.{IsPositiveCell, IsPositiveLine, is_kept, line_by};

use crate::calculating::{frac_of_count, frac_of_sum};
use crate::source::{Column, Source, source_cell};
use lk_filter::{passes, passes_frac};
use lk_types::{Filter, GroupRow};
use lk_val::{Cell, Items, NoMemory, Value};
use std::alloc::Global;

// The groups that pass the filters, each with its picked cells.
pub(crate) fn passing_lines(
    alloc: Global,
    components: &[u32],
    columns: &[Column],
    filters: &[(Source, Filter)],
    groups: Items<GroupRow>,
) -> Result<Items<GroupRow>, NoMemory>
    ensures value { IfOk result (λ lines. lines
        ≡ map (line_by components.now columns.now)
        (filter (is_kept components.now filters.now) groups)) }
    ensures positive { IfOk result (All IsPositiveLine) }
{
    let mut lines = Items::new(alloc);
    for row in groups.into_vec() {
        add_line(alloc, components, columns, filters, row, &mut lines)?;
    }
    Ok(lines)
}

// Adds the line of a group that passes the filters.
fn add_line(
    alloc: Global,
    components: &[u32],
    columns: &[Column],
    filters: &[(Source, Filter)],
    row: GroupRow,
    lines: &mut Items<GroupRow>,
) -> Result<(), NoMemory>
    ensures value { OnOk result (lines.new ≡ lines.old ++ (if is_kept components.now filters.now row
        then line_by components.now columns.now row ∷ [] else [])) }
    ensures positive { OnOk result (All IsPositiveLine lines.old → All IsPositiveLine lines.new) }
{
    if passes_each(alloc, components, row.cells.as_slice(), filters)? {
        lines.push(line_by(alloc, components, columns, row)?)?;
    }
    Ok(())
}

// A group with its picked cells.
fn line_by(
    alloc: Global,
    components: &[u32],
    columns: &[Column],
    row: GroupRow,
) -> Result<GroupRow, NoMemory>
    ensures value { IfOk result (λ line. line ≡ line_by components.now columns.now row) }
    ensures positive { IfOk result IsPositiveLine }
{
    let GroupRow { group, cells } = row;
    let picked = column_cells(
        alloc,
        components,
        cells.as_slice(),
        columns,
        group.as_slice(),
    )?;
    Ok(GroupRow {
        group,
        cells: picked,
    })
}

// The cells of a line: the columns of the group take its values in order.
fn column_cells(
    alloc: Global,
    components: &[u32],
    cells: &[Cell],
    columns: &[Column],
    group: &[Value],
) -> Result<Items<Cell>, NoMemory>
    ensures value { IfOk result (λ picked. picked
        ≡ column_cells components.now cells.now columns.now group.now) }
    ensures positive { IfOk result (All IsPositiveCell) }
{
    let mut picked = Items::new(alloc);
    let mut left = group;
    for column in columns {
        let Some(cell) = next_cell(alloc, components, cells, column, left)? else {
            return Ok(picked);
        };
        picked.push(cell)?;
        left = left_behind(column, left);
    }
    Ok(picked)
}

// The cell of a column, where the group has a value for it.
fn next_cell(
    alloc: Global,
    components: &[u32],
    cells: &[Cell],
    column: &Column,
    group: &[Value],
) -> Result<Option<Cell>, NoMemory>
    ensures value { IfOk result (λ next. next
        ≡ next_cell components.now cells.now column.now group.now) }
    ensures positive { IfOk result (λ next. IfSome next IsPositiveCell) }
{
    match column {
        Column::Group => match group.first() {
            Some(value) => Ok(Some(Cell::Value(value.copy(alloc)?))),
            None => Ok(None),
        },
        Column::Measure(source) => {
            let cell = source_cell(alloc, components, cells, source)?;
            Ok(Some(cell))
        }
    }
}

// The values that are left for the columns behind one.
fn left_behind<'a>(column: &Column, group: &'a [Value]) -> &'a [Value]
    ensures { result.now ≡ left_behind column.now group.now }
{
    match column {
        Column::Group => match group.split_first() {
            Some((_, left)) => left,
            None => group,
        },
        Column::Measure(_) => group,
    }
}

// Whether a group passes each filter on a measure.
fn passes_each(
    alloc: Global,
    components: &[u32],
    cells: &[Cell],
    filters: &[(Source, Filter)],
) -> Result<bool, NoMemory>
    ensures { IfOk result (λ passed. passed ≡ passes_each components.now cells.now filters.now) }
{
    for filter in filters {
        let cell = source_cell(alloc, components, cells, &filter.0)?;
        if !passes_cell(&filter.1, &cell) {
            return Ok(false);
        }
    }
    Ok(true)
}

// Whether a cell passes a filter, a number by its exact value.
fn passes_cell(filter: &Filter, cell: &Cell) -> bool
    ensures { result ≡ passes_cell filter.now cell.now }
{
    match cell {
        Cell::Value(value) => passes(filter, value),
        Cell::Count(count) => passes_frac(filter, Some(frac_of_count(*count))),
        Cell::Sum(sum) => passes_frac(filter, Some(frac_of_sum(*sum))),
        Cell::Frac(fraction) => passes_frac(filter, Some(*fraction)),
    }
}
