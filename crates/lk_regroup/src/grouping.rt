// The groups of a query, gathered from the rows of an aggregate table.

ghost use Rattle.std.specs.Prelude.{◌≡◌, IfOk, OnOk, map, true};
ghost use Rattle.std.specs.List.{list_all};
ghost use Rattle.lk_types.specs.Dates.{is_dated};
ghost use Rattle.lk_regroup.specs.ComponentParts.{first_parts, row_of, with_parts};
ghost use Rattle.lk_regroup.specs.Regroupings.{after_row, counted, gathered, with_empty_group, with_row};

use crate::asked::Regrouping;
use crate::component::{Component, ComponentParts, cells_of, first_parts, no_parts, with_parts};
use crate::passing::passes_each;
use crate::value::group_from;
use lk_types::{GroupRow, Partial};
use lk_val::{Items, NoMemory, Tuple, Value};
use std::alloc::Global;
use std::collections::BTreeMap;
use std::mem;

/// The groups of the rows that count, each with what it has of each component.
pub(crate) fn gathered(
    alloc: Global,
    how: &Regrouping,
    rows: &[(Items<Value>, Items<Partial>)],
) -> Result<BTreeMap<Tuple, Items<ComponentParts>>, NoMemory>
    requires dated { list_all (λ row. list_all is_dated row.0) rows.now ≡ true }
    ensures { IfOk result (λ groups. groups.entries ≡ gathered how.now (counted how.now rows.now)) }
{
    let mut groups = BTreeMap::new(alloc);
    for row in rows {
        add_row(alloc, &mut groups, how, row)?;
    }
    Ok(groups)
}

// Adds a row to its group, where it passes the filters.
fn add_row(
    alloc: Global,
    groups: &mut BTreeMap<Tuple, Items<ComponentParts>>,
    how: &Regrouping,
    row: &(Items<Value>, Items<Partial>),
) -> Result<(), NoMemory>
    requires dated { list_all is_dated row.now.0 ≡ true }
    ensures { OnOk result (groups.new.entries ≡ after_row how.now row.now groups.old.entries) }
{
    let finer = row.0.as_slice();
    if !passes_each(alloc, how.filters.as_slice(), finer)? {
        return Ok(());
    }
    let group = Tuple::new(group_from(alloc, finer, how.fields.as_slice())?);
    let components = how.components.as_slice();
    add_parts(alloc, groups, components, group, row.1.as_slice())
}

// Adds what a row keeps to what its group has. The group may be new.
fn add_parts(
    alloc: Global,
    groups: &mut BTreeMap<Tuple, Items<ComponentParts>>,
    components: &[Component],
    group: Tuple,
    partials: &[Partial],
) -> Result<(), NoMemory>
    ensures { OnOk result (groups.new.entries
        ≡ with_row (map (first_parts partials.now) components.now) (map (with_parts partials.now)) groups.old.entries group) }
{
    match groups.get_mut(&group) {
        Some(parts) => {
            let taken = mem::replace(parts, Items::new(alloc));
            *parts = with_parts(alloc, taken, partials)?;
            Ok(())
        }
        None => {
            let parts = first_parts(alloc, components, partials)?;
            groups.insert(group, parts)?;
            Ok(())
        }
    }
}

/// Adds the one empty group of a query without dimensions, where no row counts.
pub(crate) fn add_empty_group(
    alloc: Global,
    groups: &mut BTreeMap<Tuple, Items<ComponentParts>>,
    how: &Regrouping,
) -> Result<(), NoMemory>
    ensures { OnOk result (groups.new.entries ≡ with_empty_group how.now groups.old.entries) }
{
    if how.fields.is_empty() && groups.is_empty() {
        let parts = no_parts(alloc, how.components.as_slice())?;
        groups.insert(Tuple::new(Items::new(alloc)), parts)?;
    }
    Ok(())
}

/// The groups with their cells, ascending.
pub(crate) fn finished(
    alloc: Global,
    mut groups: BTreeMap<Tuple, Items<ComponentParts>>,
) -> Result<Items<GroupRow>, NoMemory>
    ensures { IfOk result (λ rows. rows ≡ map row_of groups.entries) }
{
    let mut rows = Items::new(alloc);
    while let Some((group, parts)) = groups.pop_first() {
        rows.push(GroupRow {
            group: group.into_values(),
            cells: cells_of(alloc, parts)?,
        })?;
    }
    Ok(rows)
}
