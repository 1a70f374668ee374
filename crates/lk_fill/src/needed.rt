// Which derived tables are needed where some are wanted, and the rows that are at hand.

ghost use Rattle.std.specs.Prelude.{◌≡◌, IfOk, None, OnOk, length, nat_lt, option_map, slice_index_or, true};
ghost use Rattle.std.specs.List.{list_all};
ghost use Rattle.lk_semantics.specs.Resolved.{IsResolved};
ghost use Rattle.lk_fill.specs.Fills.{needed_over, with_reads};

use crate::numbers::{add_numbers, has_number};
use crate::reading::reads_of;
use lk_table::DerivedRows;
use lk_types::Model;
use lk_val::{Items, NoMemory};
use std::alloc::Global;

/// The wanted tables, what those read that are needed and not at hand, and so on, over tables in an order.
pub(crate) fn needed_over(
    alloc: Global,
    m: &Model,
    order: &[u32],
    at_hand: &[Option<DerivedRows>],
    wanted: &[u32],
) -> Result<Items<u32>, NoMemory>
    requires model { IsResolved m.now }
    requires within { list_all (λ d. nat_lt d (length m.now.derived)) order.now ≡ true }
    ensures { IfOk result (λ needed. needed ≡ needed_over m.now at_hand.now order.now wanted.now) }
{
    let mut needed = Items::new(alloc);
    add_numbers(&mut needed, wanted)?;
    // From the end: what reads a table stands behind it.
    for place in (0..order.len()).rev() {
        add_reads(alloc, m, order[place], at_hand, &mut needed)?;
    }
    Ok(needed)
}

// Adds what a table reads, where it is needed and not at hand.
fn add_reads(
    alloc: Global,
    m: &Model,
    table: u32,
    at_hand: &[Option<DerivedRows>],
    needed: &mut Items<u32>,
) -> Result<(), NoMemory>
    requires model { IsResolved m.now }
    requires within { nat_lt table (length m.now.derived) ≡ true }
    ensures { OnOk result (needed.new ≡ with_reads m.now at_hand.now table needed.old) }
{
    if has_number(needed.as_slice(), table) && rows_at_hand(at_hand, table).is_none() {
        add_numbers(needed, reads_of(alloc, m, table)?.as_slice())?;
    }
    Ok(())
}

/// The rows of the derived table of a number, if they are at hand.
pub(crate) fn rows_at_hand(at_hand: &[Option<DerivedRows>], table: u32) -> Option<&DerivedRows>
    ensures { option_map (λ rows. rows.now) result ≡ slice_index_or at_hand.now table None }
{
    match at_hand.get(table as usize) {
        Some(rows) => rows.as_ref(),
        None => None,
    }
}
