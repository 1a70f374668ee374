ghost use Rattle.std.specs.Prelude.{◌≡◌, IfOk, OnOk, ◌++◌, ◌∷◌, [], map, slice_index_or};
ghost use Rattle.lk_val.specs.declared.cell.Cell.TheVariants as cell;
ghost use Rattle.lk_val.specs.declared.value.Value.TheVariants as value;
ghost use Rattle.lk_semantics.specs.Answers.{cell_of_frac};
ghost use Rattle.lk_lines.specs.Lines.{IsPositiveCell};
ghost use Rattle.lk_lines.specs.Sources.{column_of, filtered_source, source_cell, source_of};

use crate::calculating::{calculated, place_of};
use crate::nesting::{calculation_of, over_components};
use lk_types::{Explore, Filter, NumExpr, Pick};
use lk_val::{Cell, Copied, Frac, Items, NoMemory, Value};
use std::alloc::Global;

// Where the cell of a measure comes from: from the component at a place, or from a calculation over components.
#[derive(Drop)]
pub(crate) enum Source {
    Component(usize),
    Number(NumExpr),
}

// Where the cell of a column comes from.
#[derive(Drop)]
pub(crate) enum Column {
    Group,
    Measure(Source),
}

// Where the cells of the picked columns come from.
pub(crate) fn columns_of(
    alloc: Global,
    x: &Explore,
    components: &[u32],
    picks: &[Pick],
) -> Result<Items<Column>, NoMemory>
    ensures { IfOk result (λ columns. columns ≡ map (column_of x.now components.now) picks.now) }
{
    let mut columns = Items::new(alloc);
    for pick in picks {
        columns.push(column_of(alloc, x, components, *pick)?)?;
    }
    Ok(columns)
}

fn column_of(alloc: Global, x: &Explore, components: &[u32], pick: Pick) -> Result<Column, NoMemory>
    ensures { IfOk result (λ column. column ≡ column_of x.now components.now pick) }
{
    match pick {
        Pick::Dim(_) => Ok(Column::Group),
        Pick::Mea(m) => Ok(Column::Measure(source_of(alloc, x, components, m)?)),
    }
}

// What is filtered, each with its filter.
pub(crate) fn filtered_sources(
    alloc: Global,
    x: &Explore,
    components: &[u32],
    filters: &[(u32, Filter)],
) -> Result<Items<(Source, Filter)>, NoMemory>
    ensures { IfOk result (λ filtered. filtered
        ≡ map (filtered_source x.now components.now) filters.now) }
{
    let mut filtered = Items::new(alloc);
    for filter in filters {
        filtered.push(filtered_source(alloc, x, components, filter)?)?;
    }
    Ok(filtered)
}

fn filtered_source(
    alloc: Global,
    x: &Explore,
    components: &[u32],
    filter: &(u32, Filter),
) -> Result<(Source, Filter), NoMemory>
    ensures { IfOk result (λ filtered. filtered ≡ filtered_source x.now components.now filter.now) }
{
    let source = source_of(alloc, x, components, filter.0)?;
    let copied = filter.1.copied(alloc)?;
    Ok((source, copied))
}

fn source_of(alloc: Global, x: &Explore, components: &[u32], m: u32) -> Result<Source, NoMemory>
    ensures { IfOk result (λ source. source ≡ source_of x.now components.now m) }
{
    match calculation_of(x, m) {
        None => Ok(Source::Component(place_of(components, m))),
        Some(number) => {
            let most = x.measures.len().saturating_sub(1);
            Ok(Source::Number(over_components(alloc, x, most, number)?))
        }
    }
}

// The cell that a group's cells give.
pub(crate) fn source_cell(
    alloc: Global,
    components: &[u32],
    cells: &[Cell],
    source: &Source,
) -> Result<Cell, NoMemory>
    ensures value { IfOk result (λ cell. cell ≡ source_cell components.now cells.now source.now) }
    ensures positive { IfOk result IsPositiveCell }
{
    match source {
        Source::Component(place) => cell_at(alloc, cells, *place),
        Source::Number(e) => Ok(cell_of_frac(calculated(alloc, e, components, cells)?)),
    }
}

fn cell_of_frac(value: Option<Frac>) -> Cell
    ensures value { result ≡ cell_of_frac value }
    ensures positive { IsPositiveCell result }
{
    match value {
        Some(fraction) => frac_cell(fraction),
        None => Cell::Value(Value::Null),
    }
}

// The cell at a place, null past the end.
fn cell_at(alloc: Global, cells: &[Cell], place: usize) -> Result<Cell, NoMemory>
    ensures value { IfOk result (λ copied. copied
        ≡ slice_index_or cells.now place (cell.Value value.Null)) }
    ensures positive { IfOk result IsPositiveCell }
{
    match cells.get(place) {
        Some(cell) => copy_cell(alloc, cell),
        None => Ok(Cell::Value(Value::Null)),
    }
}

fn copy_cell(alloc: Global, cell: &Cell) -> Result<Cell, NoMemory>
    ensures value { IfOk result (λ copied. copied ≡ cell.now) }
    ensures positive { IfOk result IsPositiveCell }
{
    match cell {
        Cell::Value(value) => Ok(Cell::Value(value.copy(alloc)?)),
        Cell::Count(count) => Ok(Cell::Count(*count)),
        Cell::Sum(sum) => Ok(Cell::Sum(*sum)),
        Cell::Frac(fraction) => Ok(frac_cell(*fraction)),
    }
}

fn frac_cell(fraction: Frac) -> Cell
    ensures value { result ≡ cell.Frac fraction }
    ensures positive { IsPositiveCell result }
{
    let below = fraction.denominator();
    prove!(below > 0);
    Cell::Frac(fraction)
}
