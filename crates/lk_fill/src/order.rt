// The order in which derived tables are made.

ghost use Rattle.std.specs.Prelude.{◌≡◌, ◌<◌, ◌++◌, ◌∷◌, [], IfOk, OnOk, if◌then◌else◌, length};
ghost use Rattle.std.specs.List.{list_all};
ghost use Rattle.lk_types.specs.Expressions.{has_number};
ghost use Rattle.lk_semantics.specs.Joins.{numbers_below};
ghost use Rattle.lk_fill.specs.Orders.{after_rounds, is_ready, with_ready};

use crate::numbers::has_number;
use lk_val::{Items, NoMemory};
use std::alloc::Global;

/// The order that rounds over what each derived table reads come to: each adds the tables that are not there yet and all of whose
/// reads are. (lookd)
pub fn order_over(alloc: Global, reads: &[Items<u32>]) -> Result<Items<u32>, NoMemory>
    ensures { IfOk result (λ order. order ≡ after_rounds reads.now (length reads.now)) }
{
    // A number of a derived table has 32 bits, so there is no room for more of them.
    if reads.len() > 0xffff_ffff {
        return Err(NoMemory);
    }
    let mut order = Items::new(alloc);
    for _round in 0..reads.len() {
        add_ready(&mut order, reads)?;
    }
    Ok(order)
}

// Adds each table that is not there yet and all of whose reads are.
fn add_ready(order: &mut Items<u32>, reads: &[Items<u32>]) -> Result<(), NoMemory>
    requires { length reads.now < 4294967296 }
    ensures { OnOk result (order.new ≡ with_ready reads.now (numbers_below (length reads.now)) order.old) }
{
    for table in 0..reads.len() {
        add_if_ready(order, table as u32, reads[table].as_slice())?;
    }
    Ok(())
}

fn add_if_ready(order: &mut Items<u32>, table: u32, reads: &[u32]) -> Result<(), NoMemory>
    ensures { OnOk result (order.new ≡ (if is_ready order.old table reads.now then order.old ++ table ∷ [] else order.old)) }
{
    if is_ready(order.as_slice(), table, reads) {
        order.push(table)?;
    }
    Ok(())
}

fn is_ready(order: &[u32], table: u32, reads: &[u32]) -> bool
    ensures { result ≡ is_ready order.now table reads.now }
{
    !has_number(order, table) && are_there(order, reads)
}

fn are_there(order: &[u32], tables: &[u32]) -> bool
    ensures { result ≡ list_all (λ e. has_number e order.now) tables.now }
{
    for table in tables {
        if !has_number(order, *table) {
            return false;
        }
    }
    true
}
