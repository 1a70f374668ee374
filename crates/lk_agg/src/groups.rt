ghost use Rattle.std.specs.Prelude.{◌≡◌, IfErr, IfOk, None, OnOk, Some, map};
ghost use Rattle.lk_agg.specs.Columns.{fresh, with_cells};
ghost use Rattle.lk_agg.specs.Given.{given_cells};
ghost use Rattle.lk_agg.specs.Gathering.{gathered_from_none, with_step};
ghost use Rattle.lk_agg.specs.Finishing.{IsFaultOf, cell_of, conflict_among, conflict_from, kept_of, kept_row_of, part_of, row_of};

use crate::cells::finish_column;
use crate::columns::{Column, fresh_columns, with_cells};
use crate::fault::AggFault;
use crate::given::Given;
use crate::parts::{Part, cell_of, kept_of};
use lk_types::{GroupRow, Op, Partial};
use lk_val::{Cell, Items, NoMemory, Tuple, Value};
use std::alloc::Global;
use std::collections::BTreeMap;
use std::mem;

// The groups before any row.
pub(crate) fn first_groups(
    alloc: Global,
    dims: u32,
    ops: &[Op],
) -> Result<BTreeMap<Tuple, Items<Column>>, NoMemory>
    ensures { IfOk result (λ groups. groups.entries ≡ gathered_from_none dims ops.now) }
{
    let mut groups = BTreeMap::new(alloc);
    if dims == 0 {
        groups.insert(Tuple::new(Items::new(alloc)), fresh_columns(alloc, ops)?)?;
    }
    Ok(groups)
}

// Adds what a row gives to the columns of its group, which may be new.
pub(crate) fn add_row(
    alloc: Global,
    groups: &mut BTreeMap<Tuple, Items<Column>>,
    ops: &[Op],
    group: Tuple,
    cells: Given<'_>,
    place: u64,
) -> Result<(), NoMemory>
    ensures { OnOk result (groups.new.entries
        ≡ with_step (map fresh ops.now) (with_cells 0 place (given_cells cells.entry)) groups.old.entries group) }
{
    match groups.get_mut(&group) {
        Some(columns) => {
            let taken = mem::replace(columns, Items::new(alloc));
            *columns = with_cells(alloc, taken, cells, place)?;
            Ok(())
        }
        None => {
            let columns = fresh_columns(alloc, ops)?;
            let columns = with_cells(alloc, columns, cells, place)?;
            groups.insert(group, columns)?;
            Ok(())
        }
    }
}

// The groups with their cells, or the first conflict.
pub(crate) fn finish_groups(
    alloc: Global,
    mut groups: BTreeMap<Tuple, Items<Column>>,
) -> Result<Items<GroupRow>, AggFault>
    ensures ok { IfOk result (λ rows. (conflict_among groups.entries ≡ None)
        × (rows ≡ map row_of groups.entries)) }
    ensures conflict { IfErr result (λ fault. IsFaultOf fault (conflict_among groups.entries)) }
{
    let mut rows = Items::new(alloc);
    while let Some((group, columns)) = groups.pop_first() {
        let parts = finish_columns(alloc, columns)?;
        rows.push(GroupRow {
            group: group.into_values(),
            cells: cells_of(alloc, parts)?,
        })?;
    }
    Ok(rows)
}

// The groups with what a rollup keeps of them, or the first conflict.
pub(crate) fn keep_groups(
    alloc: Global,
    mut groups: BTreeMap<Tuple, Items<Column>>,
) -> Result<Items<(Items<Value>, Items<Partial>)>, AggFault>
    ensures ok { IfOk result (λ rows. (conflict_among groups.entries ≡ None)
        × (rows ≡ map kept_row_of groups.entries)) }
    ensures conflict { IfErr result (λ fault. IsFaultOf fault (conflict_among groups.entries)) }
{
    let mut rows = Items::new(alloc);
    while let Some((group, columns)) = groups.pop_first() {
        let parts = finish_columns(alloc, columns)?;
        rows.push((group.into_values(), partials_of(alloc, parts)?))?;
    }
    Ok(rows)
}

// The parts of a group's measures, or the first conflict.
fn finish_columns(alloc: Global, columns: Items<Column>) -> Result<Items<Part>, AggFault>
    ensures ok { IfOk result (λ parts. (conflict_from 0 columns ≡ None) × (parts ≡ map part_of columns)) }
    ensures conflict { IfErr result (λ fault. IsFaultOf fault (conflict_from 0 columns)) }
{
    let mut parts = Items::new(alloc);
    for column in columns.into_vec() {
        let (part, twice) = finish_column(alloc, column)?;
        if let Some(key) = twice {
            return Err(conflict_at(parts.len(), key));
        }
        parts.push(part)?;
    }
    Ok(parts)
}

// The fault that names the measure at a place. No query has more measures than 32 bits count.
fn conflict_at(place: usize, key: Value) -> AggFault
    ensures { IsFaultOf result (Some (place, key)) }
{
    if place > u32::MAX as usize {
        return AggFault::NoMemory;
    }
    AggFault::Conflict {
        measure: place as u32,
        key,
    }
}

fn cells_of(alloc: Global, parts: Items<Part>) -> Result<Items<Cell>, NoMemory>
    ensures { IfOk result (λ cells. cells ≡ map cell_of parts) }
{
    let mut cells = Items::from_vec(Vec::with_capacity(alloc, parts.len())?);
    for part in parts.into_vec() {
        cells.push(cell_of(part))?;
    }
    Ok(cells)
}

fn partials_of(alloc: Global, parts: Items<Part>) -> Result<Items<Partial>, NoMemory>
    ensures { IfOk result (λ partials. partials ≡ map kept_of parts) }
{
    let mut partials = Items::from_vec(Vec::with_capacity(alloc, parts.len())?);
    for part in parts.into_vec() {
        partials.push(kept_of(part))?;
    }
    Ok(partials)
}
