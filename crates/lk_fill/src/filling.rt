// Tables in which those derived ones stand that are wanted.

ghost use Rattle.std.specs.Prelude.{◌≡◌, IfOk, None, length, nat_lt, slice_index_or, true};
ghost use Rattle.lk_types.specs.Expressions.{has_number};
ghost use Rattle.lk_types.specs.Tables.{are_valid_tables};
ghost use Rattle.lk_semantics.specs.Resolved.{IsResolved};
ghost use Rattle.lk_derived.specs.ReadRows.{HasRowsFor};
ghost use Rattle.lk_table.specs.Contents.{rows_of_each};
ghost use Rattle.lk_rollup.specs.Builds.{query_of_derived};
ghost use Rattle.lk_fill.specs.Fills.{IsClosed, IsFilled, no_rows, whole_rows, with_rows};
ghost use Rattle.lk_fill.specs.Orders.{IsDeriveOrder};
ghost use Rattle.lk_fill.specs.Reads.{AreRowsOf, HasRowsOf};

use crate::needed::{needed_over, rows_at_hand};
use crate::numbers::has_number;
use crate::order::order_over;
use crate::reading::reads_of_each;
use lk_rollup::{BuildFault, derive};
use lk_table::{DerivedRows, StoredTables, TableSet, TableVersion, share_tables};
use lk_types::Model;
use lk_val::{Items, NoMemory};
use std::alloc::Global;

/// An order in which the derived tables of a model can be made: each stands behind those that its query reads. (lookd)
pub fn derive_order(alloc: Global, m: &Model) -> Result<Items<u32>, NoMemory>
    requires { IsResolved m.now }
    ensures { IfOk result (IsDeriveOrder m.now) }
{
    let reads = reads_of_each(alloc, m)?;
    order_over(alloc, reads.as_slice())
}

/// The stored tables, which are shared, with the rows of the derived ones that are wanted and of those that these read, and so on.
/// `order` is one in which derived tables can be made. Rows that are at hand, by the number of their table, are shared; nothing is
/// made for them. (lookd)
pub fn fill(
    alloc: Global,
    m: &Model,
    order: &[u32],
    tables: &[TableVersion],
    at_hand: &[Option<DerivedRows>],
    wanted: &[u32],
) -> Result<TableSet, NoMemory>
    requires model { IsResolved m.now }
    requires order { IsDeriveOrder m.now order.now }
    requires tables { are_valid_tables m.now.schema.tables (rows_of_each tables.now) ≡ true }
    requires hand { AreRowsOf m.now (rows_of_each tables.now) at_hand.now }
    ensures stored { IfOk result (λ set. set.stored ≡ rows_of_each tables.now) }
    ensures rows { IfOk result (λ set. HasRowsOf m.now set wanted.now) }
{
    let needed = needed_over(alloc, m, order, at_hand, wanted)?;
    filled(alloc, m, order, tables, at_hand, needed.as_slice())
}

// The stored tables with the rows of the derived ones that are needed.
fn filled(
    alloc: Global,
    m: &Model,
    order: &[u32],
    tables: &[TableVersion],
    at_hand: &[Option<DerivedRows>],
    needed: &[u32],
) -> Result<TableSet, NoMemory>
    requires model { IsResolved m.now }
    requires order { IsDeriveOrder m.now order.now }
    requires tables { are_valid_tables m.now.schema.tables (rows_of_each tables.now) ≡ true }
    requires hand { AreRowsOf m.now (rows_of_each tables.now) at_hand.now }
    requires closed { IsClosed m.now at_hand.now order.now needed.now }
    ensures { IfOk result (IsFilled m.now (rows_of_each tables.now) needed.now order.now) }
{
    let mut set = without_derived(alloc, m, tables)?;
    for place in 0..order.len() {
        set = with_table(alloc, m, set, order[place], at_hand, needed)?;
    }
    Ok(set)
}

// The stored tables, and no rows for each derived one.
fn without_derived(alloc: Global, m: &Model, tables: &[TableVersion]) -> Result<TableSet, NoMemory>
    ensures { IfOk result (λ set. set ≡ record { stored = rows_of_each tables.now; derived = no_rows m.now }) }
{
    let shared = share_tables(alloc, tables)?;
    Ok(TableSet::new(StoredTables::new(shared), no_rows(alloc, m)?))
}

fn no_rows(alloc: Global, m: &Model) -> Result<Items<DerivedRows>, NoMemory>
    ensures { IfOk result (λ rows. rows ≡ no_rows m.now) }
{
    let mut rows = Items::new(alloc);
    for _table in m.derived.as_slice() {
        rows.push(DerivedRows::new(alloc, Items::new(alloc))?)?;
    }
    Ok(rows)
}

// The set with the rows of a derived table in place, if it is needed.
fn with_table(
    alloc: Global,
    m: &Model,
    set: TableSet,
    table: u32,
    at_hand: &[Option<DerivedRows>],
    needed: &[u32],
) -> Result<TableSet, NoMemory>
    requires model { IsResolved m.now }
    requires within { nat_lt table (length m.now.derived) ≡ true }
    requires many { length set.derived ≡ length m.now.derived }
    requires hand { AreRowsOf m.now set.stored at_hand.now }
    requires reads { has_number table needed.now ≡ true → slice_index_or at_hand.now table None ≡ None
        → HasRowsFor m.now set (query_of_derived m.now table) }
    ensures { IfOk result (λ filled. filled ≡ with_rows m.now needed.now table set) }
{
    if !has_number(needed, table) {
        return Ok(set);
    }
    let rows = rows_of(alloc, m, &set, table, at_hand)?;
    Ok(set.with_derived(table, rows))
}

// The rows of a derived table: those at hand are shared, and else they are made.
fn rows_of(
    alloc: Global,
    m: &Model,
    set: &TableSet,
    table: u32,
    at_hand: &[Option<DerivedRows>],
) -> Result<DerivedRows, NoMemory>
    requires model { IsResolved m.now }
    requires within { nat_lt table (length m.now.derived) ≡ true }
    requires hand { AreRowsOf m.now set.now.stored at_hand.now }
    requires reads { slice_index_or at_hand.now table None ≡ None → HasRowsFor m.now set.now (query_of_derived m.now table) }
    ensures { IfOk result (λ rows. rows ≡ whole_rows m.now set.now table) }
{
    match rows_at_hand(at_hand, table) {
        Some(rows) => rows.share(),
        None => made(alloc, m, set, table),
    }
}

fn made(alloc: Global, m: &Model, set: &TableSet, table: u32) -> Result<DerivedRows, NoMemory>
    requires model { IsResolved m.now }
    requires within { nat_lt table (length m.now.derived) ≡ true }
    requires reads { HasRowsFor m.now set.now (query_of_derived m.now table) }
    ensures { IfOk result (λ rows. rows ≡ whole_rows m.now set.now table) }
{
    match derive(alloc, m, table, set, false) {
        Ok(rows) => Ok(rows),
        Err(BuildFault::NoMemory) => Err(NoMemory),
        // Without a cap no number of cells is too many.
        Err(BuildFault::G2(_)) => unreachable!(),
    }
}
