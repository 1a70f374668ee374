// The queries of aggregate tables and of derived ones, and their groups.

ghost use Rattle.std.specs.Prelude.{◌≡◌, ◌++◌, IfOk, OnOk, None, length, map, nat_lt, true};
ghost use Rattle.lk_types.specs.declared.model.Pick.TheVariants.{Dim, Mea};
ghost use Rattle.lk_semantics.specs.Answers.{filtered, query_components};
ghost use Rattle.lk_semantics.specs.Derived.{derived_query, explore_at};
ghost use Rattle.lk_semantics.specs.Resolved.{IsInModel, IsResolved, are_filters_of, are_fixed, have_fixed_filters};
ghost use Rattle.lk_semantics.specs.Rollups.{derived_at, rollup_at};
ghost use Rattle.lk_derived.specs.ReadRows.{HasRowsFor, whole};
ghost use Rattle.lk_gather.specs.Groups.{conflict_over, groups_over, parts_over};
ghost use Rattle.lk_regroup_laws.specs.Stored.{rollup_picks, rollup_query};
ghost use Rattle.lk_rollup.specs.Builds.{query_stored};

use lk_derived::rows_read_are_dated;
use lk_gather::{GatherFault, groups, kept_parts, resolved_explores_are_fine};
use lk_plan::{compile, conditions_are_dated, joined_rows_meet_conditions};
use lk_query::with_always;
use lk_table::TableSet;
use lk_tree::need_joins;
use lk_types::{Bound, Derived, Explore, Filter, GroupRow, Model, Partial, Pick, Rollup};
use lk_val::{Copied, Items, NoMemory, Text, Value};
use std::alloc::Global;

// What is stored has no relative date, so that it is the same at each moment.
const ANY_MOMENT: i64 = 0;

/// The query whose groups an aggregate table of the explore of a number keeps.
pub fn rollup_query(alloc: Global, x: &Explore, number: u32, r: &Rollup) -> Result<Bound, NoMemory>
    ensures { IfOk result (λ query. query ≡ rollup_query x.now number r.now) }
{
    let picks = rollup_picks(alloc, r)?;
    stored_query(alloc, x, number, picks, r.filters.copy(alloc)?)
}

fn rollup_picks(alloc: Global, r: &Rollup) -> Result<Items<Pick>, NoMemory>
    ensures { IfOk result (λ picks. picks ≡ rollup_picks r.now) }
{
    let mut picks = Items::new(alloc);
    add_dims(&mut picks, r.dims.as_slice())?;
    add_measures(&mut picks, r.measures.as_slice())?;
    Ok(picks)
}

fn add_dims(picks: &mut Items<Pick>, dims: &[u32]) -> Result<(), NoMemory>
    ensures { OnOk result (picks.new ≡ picks.old ++ map Dim dims.now) }
{
    for dim in dims {
        picks.push(Pick::Dim(*dim))?;
    }
    Ok(())
}

fn add_measures(picks: &mut Items<Pick>, measures: &[u32]) -> Result<(), NoMemory>
    ensures { OnOk result (picks.new ≡ picks.old ++ map Mea measures.now) }
{
    for measure in measures {
        picks.push(Pick::Mea(*measure))?;
    }
    Ok(())
}

/// The query whose lines are the rows of a derived table.
pub fn derived_query(alloc: Global, x: &Explore, d: &Derived) -> Result<Bound, NoMemory>
    requires typed { are_filters_of x.now x.now.always ≡ true }
    requires fixed { are_fixed x.now.always ≡ true }
    ensures { IfOk result (λ query. query ≡ derived_query x.now d.now) }
{
    let picks = column_picks(alloc, d.columns.as_slice())?;
    let rows = with_always(alloc, ANY_MOMENT, x, d.filters.copy(alloc)?)?;
    stored_query(alloc, x, d.explore, picks, rows)
}

fn column_picks(alloc: Global, columns: &[(Text, Pick)]) -> Result<Items<Pick>, NoMemory>
    ensures { IfOk result (λ picks. picks ≡ map (λ column. column.1) columns.now) }
{
    let mut picks = Items::new(alloc);
    for column in columns {
        picks.push(column.1)?;
    }
    Ok(picks)
}

// A query over the explore of a number with these filters on dimensions alone.
fn stored_query(
    alloc: Global,
    x: &Explore,
    number: u32,
    picks: Items<Pick>,
    rows: Items<(u32, Filter)>,
) -> Result<Bound, NoMemory>
    ensures { IfOk result (λ query. query ≡ query_stored x.now number picks rows) }
{
    let fields = filtered(alloc, rows.as_slice())?;
    let joins = need_joins(alloc, x, picks.as_slice(), fields.as_slice())?;
    Ok(Bound {
        explore: number,
        picks,
        joins,
        access: Items::new(alloc),
        rows,
        having: Items::new(alloc),
        sorts: Items::new(alloc),
        limit: 1,
        fresh: false,
        csv: false,
    })
}

fn filtered(alloc: Global, filters: &[(u32, Filter)]) -> Result<Items<u32>, NoMemory>
    ensures { IfOk result (λ fields. fields ≡ filtered filters.now) }
{
    let mut fields = Items::new(alloc);
    for filter in filters {
        fields.push(filter.0)?;
    }
    Ok(fields)
}

/// The groups of a stored query with the parts of its measures, over the tables that it reads.
pub(crate) fn stored_parts(
    alloc: Global,
    m: &Model,
    t: &TableSet,
    query: &Bound,
) -> Result<Items<(Items<Value>, Items<Partial>)>, NoMemory>
    requires model { IsResolved m.now }
    requires query { IsInModel m.now query.now }
    requires fixed { have_fixed_filters (explore_at m.now query.now.explore) (query_components (explore_at m.now query.now.explore) query.now) ≡ true }
    requires tables { HasRowsFor m.now t.now query.now }
    requires calm { conflict_over (explore_at m.now query.now.explore) (whole m.now t.now) query.now ≡ None }
    ensures { IfOk result (λ rows. rows ≡ parts_over (explore_at m.now query.now.explore) (whole m.now t.now) query.now) }
{
    resolved_explores_are_fine();
    joined_rows_meet_conditions();
    conditions_are_dated();
    rows_read_are_dated();
    let plan = compile(alloc, m, query)?;
    match kept_parts(alloc, explore_of(m, query.explore), t, &plan, ANY_MOMENT) {
        Ok(rows) => Ok(rows),
        Err(GatherFault::NoMemory) => Err(NoMemory),
        // No key has two values for a measure that may be stored.
        Err(GatherFault::Conflict) => unreachable!(),
    }
}

/// The groups of a stored query with the cells of its measures, over the tables that it reads.
pub(crate) fn stored_groups(
    alloc: Global,
    m: &Model,
    t: &TableSet,
    query: &Bound,
) -> Result<Items<GroupRow>, NoMemory>
    requires model { IsResolved m.now }
    requires query { IsInModel m.now query.now }
    requires fixed { have_fixed_filters (explore_at m.now query.now.explore) (query_components (explore_at m.now query.now.explore) query.now) ≡ true }
    requires tables { HasRowsFor m.now t.now query.now }
    requires calm { conflict_over (explore_at m.now query.now.explore) (whole m.now t.now) query.now ≡ None }
    ensures { IfOk result (λ groups. groups ≡ groups_over (explore_at m.now query.now.explore) (whole m.now t.now) query.now) }
{
    resolved_explores_are_fine();
    joined_rows_meet_conditions();
    conditions_are_dated();
    rows_read_are_dated();
    let plan = compile(alloc, m, query)?;
    match groups(alloc, explore_of(m, query.explore), t, &plan, ANY_MOMENT) {
        Ok(groups) => Ok(groups),
        Err(GatherFault::NoMemory) => Err(NoMemory),
        // No key has two values for a measure that may be stored.
        Err(GatherFault::Conflict) => unreachable!(),
    }
}

/// The explore of a number, by which a query names it.
pub fn explore_of(m: &Model, number: u32) -> &Explore
    requires { nat_lt number (length m.now.explores) ≡ true }
    ensures { result.now ≡ explore_at m.now number }
{
    &m.explores.as_slice()[number as usize]
}

/// The aggregate table of a number: its place among those that the explore declares.
pub fn rollup_of(x: &Explore, number: u32) -> &Rollup
    requires { nat_lt number (length x.now.rollups) ≡ true }
    ensures { result.now ≡ rollup_at x.now number }
{
    &x.rollups.as_slice()[number as usize]
}

/// The derived table of a number: its place among those of the model.
pub fn derived_of(m: &Model, number: u32) -> &Derived
    requires { nat_lt number (length m.now.derived) ≡ true }
    ensures { result.now ≡ derived_at m.now number }
{
    &m.derived.as_slice()[number as usize]
}
