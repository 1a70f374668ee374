ghost use Rattle.std.specs.Prelude.{◌≡◌, length, nat_lt, true};
ghost use Rattle.lk_val.specs.Memory.{IsUnlessMemory};
ghost use Rattle.lk_semantics.specs.Resolved.{IsResolved};
ghost use Rattle.lk_semantics.specs.Rollups.{derived_at};
ghost use Rattle.lk_derived.specs.ReadRows.{HasRowsFor, whole};
ghost use Rattle.lk_rollup.specs.Builds.{derived_capped, derived_made, is_no_memory, query_of_derived};

use crate::building::are_many_cells;
use crate::fault::BuildFault;
use crate::stored::{derived_of, derived_query, explore_of, stored_groups};
use crate::values::rows_of;
use lk_lines::lines;
use lk_regroup_laws::stored_queries_have_no_conflict;
use lk_table::{DerivedRows, TableSet};
use lk_types::{Derived, Model};
use lk_val::{Items, Value};
use std::alloc::Global;

/// The rows of derived table `d`, by number, over tables that have the rows which its query reads: the lines of that query, all of
/// them, each cell a value. Where `cap` holds, more than 1,000,000 cells are refused (G2). (Looker, LookML reference:
/// explore_source; lookd)
pub fn derive(
    alloc: Global,
    m: &Model,
    d: u32,
    t: &TableSet,
    cap: bool,
) -> Result<DerivedRows, BuildFault>
    requires model { IsResolved m.now }
    requires derived { nat_lt d (length m.now.derived) ≡ true }
    requires tables { HasRowsFor m.now t.now (query_of_derived m.now d) }
    ensures { IsUnlessMemory is_no_memory result (derived_made m.now (whole m.now t.now) (derived_at m.now d) cap) }
{
    stored_queries_have_no_conflict();
    let derived = derived_of(m, d);
    let explore = explore_of(m, derived.explore);
    let query = derived_query(alloc, explore, derived)?;
    let groups = stored_groups(alloc, m, t, &query)?;
    let rows = rows_of(alloc, lines(alloc, explore, &query, groups)?)?;
    capped(alloc, derived, rows, cap)
}

// The rows of a derived table, unless there is a cap and they are too many.
fn capped(
    alloc: Global,
    derived: &Derived,
    rows: Items<Items<Value>>,
    cap: bool,
) -> Result<DerivedRows, BuildFault>
    ensures { IsUnlessMemory is_no_memory result (derived_capped derived.now cap rows) }
{
    if cap && are_many_cells(rows.len(), derived.columns.len()) {
        return Err(BuildFault::G2(derived.name.copy(alloc)?));
    }
    Ok(DerivedRows::new(alloc, rows)?)
}
