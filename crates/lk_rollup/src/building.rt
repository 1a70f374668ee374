ghost use Rattle.std.specs.Prelude.{◌≡◌, length, nat_lt, true};
ghost use Rattle.lk_val.specs.Memory.{IsUnlessMemory};
ghost use Rattle.lk_semantics.specs.Derived.{explore_at};
ghost use Rattle.lk_semantics.specs.Resolved.{IsResolved};
ghost use Rattle.lk_semantics.specs.Rollups.{rollup_at};
ghost use Rattle.lk_derived.specs.ReadRows.{HasRowsFor, whole};
ghost use Rattle.lk_rollup.specs.Builds.{are_many_cells, is_no_memory, query_of_rollup, rollup_capped, rollup_made};

use crate::fault::BuildFault;
use crate::stored::{explore_of, rollup_of, rollup_query, stored_parts};
use lk_regroup_laws::{rollups_keep_their_queries, stored_queries_have_no_conflict};
use lk_table::TableSet;
use lk_types::{Model, Partial, Rollup};
use lk_val::{Items, Value};
use std::alloc::Global;

/// What an aggregate table keeps: each group of its dimensions, ascending, with the parts of its measures' components.
#[derive(Drop)]
pub struct RollupRows {
    pub rows: Items<(Items<Value>, Items<Partial>)>,
}

/// The rows of aggregate table `r` of explore `x`, both by number, over tables that have the rows which its query reads. Neither
/// access filters nor `always_filter` apply. Its cells are its rows times the dimensions and measures that it lists: more than
/// 1,000,000 are refused (G2). (Looker, LookML reference: aggregate_table; lookd)
pub fn build(
    alloc: Global,
    m: &Model,
    x: u32,
    r: u32,
    t: &TableSet,
) -> Result<RollupRows, BuildFault>
    requires model { IsResolved m.now }
    requires explore { nat_lt x (length m.now.explores) ≡ true }
    requires rollup { nat_lt r (length (explore_at m.now x).rollups) ≡ true }
    requires tables { HasRowsFor m.now t.now (query_of_rollup m.now x r) }
    ensures { IsUnlessMemory is_no_memory result (rollup_made (explore_at m.now x) (whole m.now t.now) (rollup_at (explore_at m.now x) r)) }
{
    rollups_keep_their_queries();
    stored_queries_have_no_conflict();
    let explore = explore_of(m, x);
    let rollup = rollup_of(explore, r);
    let query = rollup_query(alloc, explore, x, rollup)?;
    let rows = stored_parts(alloc, m, t, &query)?;
    capped(alloc, rollup, rows)
}

// The rows of an aggregate table, unless they are too many.
fn capped(
    alloc: Global,
    rollup: &Rollup,
    rows: Items<(Items<Value>, Items<Partial>)>,
) -> Result<RollupRows, BuildFault>
    ensures { IsUnlessMemory is_no_memory result (rollup_capped rollup.now rows) }
{
    let Some(columns) = rollup.dims.len().checked_add(rollup.measures.len()) else {
        return Err(BuildFault::NoMemory);
    };
    if are_many_cells(rows.len(), columns) {
        return Err(BuildFault::G2(rollup.name.copy(alloc)?));
    }
    Ok(RollupRows { rows })
}

/// Whether so many rows of so many columns are more than 1,000,000 cells, which no build may have. (lookd)
pub fn are_many_cells(rows: usize, columns: usize) -> bool
    ensures { result ≡ are_many_cells rows columns }
{
    rows as u128 * columns as u128 > 1_000_000
}
