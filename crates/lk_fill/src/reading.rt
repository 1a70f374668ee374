// Which derived tables a query reads.

ghost use Rattle.std.specs.Prelude.{◌≡◌, ◌++◌, IfOk, OnOk, length, nat_lt, true};
ghost use Rattle.lk_semantics.specs.Joins.{part_at};
ghost use Rattle.lk_semantics.specs.Reading.{derived_in, read_by};
ghost use Rattle.lk_semantics.specs.Resolved.{IsResolved};
ghost use Rattle.lk_fill.specs.Orders.{reads_of_each};
ghost use Rattle.lk_fill.specs.Reads.{tables_read};

use lk_rollup::{derived_of, derived_query, explore_of};
use lk_types::{Explore, Model, Origin};
use lk_val::{Items, NoMemory};
use std::alloc::Global;

/// The numbers of the derived tables that a query over some joins reads, in order: that of the base view, and those of the views
/// that the joins bring. (lookd)
pub fn tables_read(alloc: Global, x: &Explore, joins: &[u32]) -> Result<Items<u32>, NoMemory>
    ensures { IfOk result (λ tables. tables ≡ tables_read x.now joins.now) }
{
    let mut tables = Items::new(alloc);
    add_part(&mut tables, x, 0)?;
    for join in joins {
        add_part(&mut tables, x, *join as usize + 1)?;
    }
    Ok(tables)
}

// Adds the derived table of a view, if its rows come from one.
fn add_part(tables: &mut Items<u32>, x: &Explore, part: usize) -> Result<(), NoMemory>
    ensures { OnOk result (tables.new ≡ tables.old ++ derived_in (part_at x.now part).origin) }
{
    if part < x.parts.len() {
        add_origin(tables, x.parts.as_slice()[part].origin)?;
    }
    Ok(())
}

fn add_origin(tables: &mut Items<u32>, origin: Origin) -> Result<(), NoMemory>
    ensures { OnOk result (tables.new ≡ tables.old ++ derived_in origin) }
{
    if let Origin::Derived(table) = origin {
        tables.push(table)?;
    }
    Ok(())
}

/// The numbers of the derived tables that the query of each derived table reads.
pub(crate) fn reads_of_each(alloc: Global, m: &Model) -> Result<Items<Items<u32>>, NoMemory>
    requires { IsResolved m.now }
    ensures { IfOk result (λ reads. reads ≡ reads_of_each m.now) }
{
    // A number of a derived table has 32 bits, so there is no room for more of them.
    if m.derived.len() > 0xffff_ffff {
        return Err(NoMemory);
    }
    let mut reads = Items::new(alloc);
    for table in 0..m.derived.len() {
        reads.push(reads_of(alloc, m, table as u32)?)?;
    }
    Ok(reads)
}

/// The numbers of the derived tables that the query of the derived table of a number reads.
pub(crate) fn reads_of(alloc: Global, m: &Model, table: u32) -> Result<Items<u32>, NoMemory>
    requires model { IsResolved m.now }
    requires within { nat_lt table (length m.now.derived) ≡ true }
    ensures { IfOk result (λ tables. tables ≡ read_by m.now table) }
{
    let derived = derived_of(m, table);
    let explore = explore_of(m, derived.explore);
    let query = derived_query(alloc, explore, derived)?;
    tables_read(alloc, explore, query.joins.as_slice())
}
