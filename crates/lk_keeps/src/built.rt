// The tables of a datagroup's build.

ghost use Rattle.std.specs.Prelude.{◌≡◌, ◌<◌, [], IfOk, length, slice_index_or, true};
ghost use Rattle.lk_semantics.specs.Resolved.{IsResolved};
ghost use Rattle.lk_fill.specs.Orders.{IsDeriveOrder};
ghost use Rattle.lk_fill.specs.Reads.{HasRowsOf};
ghost use Rattle.lk_keeps.specs.Built.{all_built, rows_built};
ghost use Rattle.lk_keeps.specs.Keeps.{AreKept, persists};

use crate::keeps::Keeps;
use crate::numbers::{is_of, number_of};
use lk_fill::fill;
use lk_table::{DerivedRows, TableSet};
use lk_types::{Derived, Model};
use lk_val::{Items, NoMemory};
use std::alloc::Global;

/// The stored tables of the build of a datagroup that persists a derived table, shared, with the rows of the derived tables that are
/// wanted and of those that these read. The rows of those that the datagroup persists are shared as they are kept, and nothing is
/// made for them. `order` is one in which derived tables can be made. (Looker, LookML reference: datagroup_trigger; lookd)
pub fn fill_built(
    alloc: Global,
    m: &Model,
    order: &[u32],
    keeps: &Keeps,
    group: u32,
    wanted: &[u32],
) -> Result<TableSet, NoMemory>
    requires model { IsResolved m.now }
    requires order { IsDeriveOrder m.now order.now }
    requires kept { AreKept m.now keeps.now }
    requires group { group < length m.now.datagroups }
    requires persists { persists m.now group ≡ true }
    ensures stored { IfOk result (λ set. set.stored ≡ slice_index_or keeps.now.tables group []) }
    ensures rows { IfOk result (λ set. HasRowsOf m.now set wanted.now) }
{
    let at_hand = all_built(alloc, m, keeps, group)?;
    fill(
        alloc,
        m,
        order,
        keeps.tables(group),
        at_hand.as_slice(),
        wanted,
    )
}

// The kept rows of the derived tables that a datagroup persists, by the numbers of the tables.
fn all_built(
    alloc: Global,
    m: &Model,
    keeps: &Keeps,
    group: u32,
) -> Result<Items<Option<DerivedRows>>, NoMemory>
    ensures { IfOk result (λ rows. rows ≡ all_built m.now keeps.now group) }
{
    let mut rows = Items::new(alloc);
    for (place, table) in m.derived.as_slice().iter().enumerate() {
        rows.push(rows_built(alloc, keeps, group, number_of(place)?, table)?)?;
    }
    Ok(rows)
}

fn rows_built(
    alloc: Global,
    keeps: &Keeps,
    group: u32,
    number: u32,
    table: &Derived,
) -> Result<Option<DerivedRows>, NoMemory>
    ensures { IfOk result (λ rows. rows ≡ rows_built keeps.now group (number, table.now)) }
{
    if !is_of(&[group], table.datagroup) {
        return Ok(None);
    }
    Ok(Some(keeps.share_derived(alloc, number)?))
}
