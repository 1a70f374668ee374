ghost use Rattle.std.specs.Prelude.{◌≡◌, ◌++◌, All, IfOk, OnOk, filter, map, take};
ghost use Rattle.std.specs.List.Sorted.{IsStrictlySortedBy};
ghost use Rattle.lk_val.specs.Values.{tuple_cmp};
ghost use Rattle.lk_semantics.specs.Answers.{cut, filtered, lines_of, picked_measures, query_components};
ghost use Rattle.lk_lines.specs.Lines.{IsPositiveLine, is_kept, line_by};
ghost use Rattle.lk_lines.specs.Sources.{column_of, filtered_source};

use crate::line::passing_lines;
use crate::order::sorted;
use crate::source::{columns_of, filtered_sources};
use lk_tree::components;
use lk_types::{Answer, Bound, Explore, Filter, GroupRow, Pick};
use lk_val::{Cell, Items, NoMemory};
use std::alloc::Global;

/// The answer of a query from its groups with the cells of its components, where the groups ascend: the first of its
/// `lines`, and whether these are all. (lookd)
pub fn answer_lines(
    alloc: Global,
    x: &Explore,
    b: &Bound,
    groups: Items<GroupRow>,
) -> Result<Answer, NoMemory>
    ensures { IsStrictlySortedBy tuple_cmp (map (λ row. row.group) groups)
        → IfOk result (λ answer. answer ≡ cut b.now.limit (lines_of x.now b.now groups)) }
{
    cut(alloc, b.limit, lines(alloc, x, b, groups)?)
}

/// All lines of a query from its groups with the cells of its components, where the groups ascend: those of the groups
/// that pass the filters on measures, in order. It sorts the lines, so of n groups it compares some n log n; and it goes
/// once over each group, where a `number` that is picked or filtered on costs one pass over the nodes of its calculation.
/// (lookd)
pub fn lines(
    alloc: Global,
    x: &Explore,
    b: &Bound,
    groups: Items<GroupRow>,
) -> Result<Items<GroupRow>, NoMemory>
    ensures { IsStrictlySortedBy tuple_cmp (map (λ row. row.group) groups)
        → IfOk result (λ lines. lines ≡ lines_of x.now b.now groups) }
{
    let components = query_components(alloc, x, b)?;
    let lines = lines_over(alloc, x, b, components.as_slice(), groups)?;
    Ok(sorted(b.sorts.as_slice(), lines))
}

// The lines of the groups that pass, in their order, where the groups have the cells of these components.
fn lines_over(
    alloc: Global,
    x: &Explore,
    b: &Bound,
    components: &[u32],
    groups: Items<GroupRow>,
) -> Result<Items<GroupRow>, NoMemory>
    ensures value { IfOk result (λ lines. lines
        ≡ map (line_by components.now (map (column_of x.now components.now) b.now.picks))
        (filter (is_kept components.now (map (filtered_source x.now components.now) b.now.having))
        groups)) }
    ensures positive { IfOk result (All IsPositiveLine) }
{
    let columns = columns_of(alloc, x, components, b.picks.as_slice())?;
    let filters = filtered_sources(alloc, x, components, b.having.as_slice())?;
    passing_lines(
        alloc,
        components,
        columns.as_slice(),
        filters.as_slice(),
        groups,
    )
}

/// The components of a query, of which its groups have the cells in this order: those of its picked measures, and
/// then of its filters on measures. (lookd)
pub fn query_components(alloc: Global, x: &Explore, b: &Bound) -> Result<Items<u32>, NoMemory>
    ensures { IfOk result (λ components. components ≡ query_components x.now b.now) }
{
    let mut measures = Items::new(alloc);
    add_picked(&mut measures, b.picks.as_slice())?;
    add_filtered(&mut measures, b.having.as_slice())?;
    components(alloc, x, measures.as_slice())
}

fn add_picked(measures: &mut Items<u32>, picks: &[Pick]) -> Result<(), NoMemory>
    ensures { OnOk result (measures.new ≡ measures.old ++ picked_measures picks.now) }
{
    for pick in picks {
        if let Pick::Mea(m) = pick {
            measures.push(*m)?;
        }
    }
    Ok(())
}

fn add_filtered(measures: &mut Items<u32>, filters: &[(u32, Filter)]) -> Result<(), NoMemory>
    ensures { OnOk result (measures.new ≡ measures.old ++ filtered filters.now) }
{
    for filter in filters {
        measures.push(filter.0)?;
    }
    Ok(())
}

// The first lines, and whether these are all.
fn cut(alloc: Global, limit: u32, lines: Items<GroupRow>) -> Result<Answer, NoMemory>
    ensures { IfOk result (λ answer. answer ≡ cut limit lines) }
{
    let complete = lines.len() <= limit as usize;
    Ok(Answer::Table(first_cells(alloc, limit, lines)?, complete))
}

fn first_cells(
    alloc: Global,
    limit: u32,
    lines: Items<GroupRow>,
) -> Result<Items<Items<Cell>>, NoMemory>
    ensures { IfOk result (λ rows. rows ≡ map (λ line. line.cells) (take limit lines)) }
{
    let mut kept = lines.into_vec();
    kept.truncate(limit as usize);
    cells_of(alloc, Items::from_vec(kept))
}

fn cells_of(alloc: Global, lines: Items<GroupRow>) -> Result<Items<Items<Cell>>, NoMemory>
    ensures { IfOk result (λ rows. rows ≡ map (λ line. line.cells) lines) }
{
    let mut rows = Items::new(alloc);
    for line in lines.into_vec() {
        let GroupRow { group: _, cells } = line;
        rows.push(cells)?;
    }
    Ok(rows)
}
