ghost use Rattle.std.specs.Prelude.{◌≡◌, ◌<◌, ◌++◌, ◌∷◌, [], Some, IfOk, OnOk, length, map};
ghost use Rattle.lk_types.specs.declared.model.Pick.TheVariants.{Dim, Mea};
ghost use Rattle.lk_semantics.specs.Answers.{picked_measures, query_components};
ghost use Rattle.lk_semantics.specs.Derived.{derived_query};
ghost use Rattle.lk_semantics.specs.Joins.{numbers_below};
ghost use Rattle.lk_semantics.specs.Rollups.{rollup_joins};
ghost use Rattle.lk_params.specs.Findings.{named_line};
ghost use Rattle.lk_scope.specs.Pieces.{IsTested, first_at};
ghost use Rattle.lk_stored.specs.Reads.{row_of};
ghost use Rattle.lk_stored.specs.StoredFaults.{datagroups_line, derived_line, derived_line_over, measure_line, rollup_line, rollups_line, self_read_line, stored_fault};

use crate::marks::{has_one_datagroup, reads_itself};
use crate::reads::{derived_joins, explore_or, fields_of, no_explore, picks_of, read_rows};
use crate::storing::may_be_stored;
use lk_fields::Row;
use lk_params::{Number, named_line};
use lk_tree::{components, need_joins};
use lk_types::{Derived, Explore, Model, Pick, Rollup};
use lk_val::{FaultLine, Items, ModelFault, NoMemory};
use std::alloc::Global;

/// Whether a model has a fault that only the whole of it shows, and the first: a derived table that reads itself (N7), an
/// explore that reaches two datagroups (N10), a measure of a derived table and then of an aggregate table that may not be
/// stored (N12). (Looker, LookML reference: derived_table, aggregate_table, datagroup_trigger; lookd)
pub fn test_stored(alloc: Global, m: &Model) -> Result<(), ModelFault>
    ensures { IsTested result (stored_fault m.now) }
{
    let rows = read_rows(alloc, m)?;
    test_cycles(alloc, m, rows.as_slice())?;
    test_datagroups(alloc, m, rows.as_slice())?;
    test_derived(alloc, m)?;
    test_all_rollups(alloc, m.explores.as_slice())
}

fn test_cycles(alloc: Global, m: &Model, rows: &[Row]) -> Result<(), ModelFault>
    requires rows { rows.now ≡ map (row_of m.now) m.now.derived }
    ensures { IsTested result (first_at (self_read_line m.now) (numbers_below (length m.now.derived))) }
{
    for d in 0..m.derived.len() {
        if let Some(line) = self_read_line(alloc, m, rows, d)? {
            return Err(ModelFault::Fault(line));
        }
    }
    Ok(())
}

// The fault of a derived table that reads itself.
fn self_read_line(
    alloc: Global,
    m: &Model,
    rows: &[Row],
    d: usize,
) -> Result<Option<FaultLine>, NoMemory>
    requires rows { rows.now ≡ map (row_of m.now) m.now.derived }
    requires table { d < length m.now.derived }
    ensures { IfOk result (λ line. line ≡ self_read_line m.now d) }
{
    if !reads_itself(alloc, m, rows, d)? {
        return Ok(None);
    }
    let name = m.derived.as_slice()[d].name.as_str();
    Ok(Some(named_line(alloc, Number::N7, name, "")?))
}

// Answers a fault.
fn refuse(alloc: Global, number: Number, object: &str, other: &str) -> Result<(), ModelFault>
    ensures { IsTested result (Some (named_line number object.now other.now)) }
{
    let line = named_line(alloc, number, object, other)?;
    Err(ModelFault::Fault(line))
}

fn test_datagroups(alloc: Global, m: &Model, rows: &[Row]) -> Result<(), ModelFault>
    requires rows { rows.now ≡ map (row_of m.now) m.now.derived }
    ensures { IsTested result (first_at (datagroups_line m.now) m.now.explores) }
{
    for x in m.explores.as_slice() {
        test_datagroups_of(alloc, m, rows, x)?;
    }
    Ok(())
}

fn test_datagroups_of(alloc: Global, m: &Model, rows: &[Row], x: &Explore) -> Result<(), ModelFault>
    requires rows { rows.now ≡ map (row_of m.now) m.now.derived }
    ensures { IsTested result (datagroups_line m.now x.now) }
{
    if has_one_datagroup(alloc, m, rows, x)? {
        return Ok(());
    }
    refuse(alloc, Number::N10, x.name.as_str(), "")
}

fn test_derived(alloc: Global, m: &Model) -> Result<(), ModelFault>
    ensures { IsTested result (first_at (derived_line m.now) m.now.derived) }
{
    for table in m.derived.as_slice() {
        test_table(alloc, m, table)?;
    }
    Ok(())
}

fn test_table(alloc: Global, m: &Model, table: &Derived) -> Result<(), ModelFault>
    ensures { IsTested result (derived_line m.now table.now) }
{
    let other = no_explore(alloc);
    test_table_over(alloc, explore_or(m, table.explore, &other), table)
}

fn test_table_over(alloc: Global, x: &Explore, table: &Derived) -> Result<(), ModelFault>
    ensures { IsTested result (derived_line_over x.now table.now) }
{
    let joins = derived_joins(alloc, x, table)?;
    let measures = derived_components(alloc, x, table)?;
    test_measures(
        alloc,
        table.name.as_str(),
        x,
        joins.as_slice(),
        measures.as_slice(),
    )
}

// The components of a derived table's query.
fn derived_components(alloc: Global, x: &Explore, table: &Derived) -> Result<Items<u32>, NoMemory>
    ensures { IfOk result (λ measures. measures ≡ query_components x.now (derived_query x.now table.now)) }
{
    let picks = picks_of(alloc, table)?;
    let measures = measures_of(alloc, picks.as_slice())?;
    components(alloc, x, measures.as_slice())
}

fn measures_of(alloc: Global, picks: &[Pick]) -> Result<Items<u32>, NoMemory>
    ensures { IfOk result (λ measures. measures ≡ picked_measures picks.now) }
{
    let mut measures = Items::new(alloc);
    for pick in picks {
        add_measure(&mut measures, *pick)?;
    }
    Ok(measures)
}

fn add_measure(measures: &mut Items<u32>, pick: Pick) -> Result<(), NoMemory>
    ensures { OnOk result (measures.new ≡ measures.old ++ picked_measures (pick ∷ [])) }
{
    match pick {
        Pick::Dim(_) => Ok(()),
        Pick::Mea(measure) => measures.push(measure),
    }
}

fn test_measures(
    alloc: Global,
    object: &str,
    x: &Explore,
    joins: &[u32],
    measures: &[u32],
) -> Result<(), ModelFault>
    ensures { IsTested result (first_at (measure_line object.now x.now joins.now) measures.now) }
{
    for n in measures {
        test_measure(alloc, object, x, joins, *n)?;
    }
    Ok(())
}

fn test_measure(
    alloc: Global,
    object: &str,
    x: &Explore,
    joins: &[u32],
    n: u32,
) -> Result<(), ModelFault>
    ensures { IsTested result (measure_line object.now x.now joins.now n) }
{
    if may_be_stored(alloc, x, joins, n)? {
        return Ok(());
    }
    match x.measures.as_slice().get(n as usize) {
        Some(measure) => refuse(alloc, Number::N12, object, measure.name.as_str()),
        None => refuse(alloc, Number::N12, object, ""),
    }
}

fn test_all_rollups(alloc: Global, explores: &[Explore]) -> Result<(), ModelFault>
    ensures { IsTested result (first_at rollups_line explores.now) }
{
    for x in explores {
        test_rollups(alloc, x)?;
    }
    Ok(())
}

fn test_rollups(alloc: Global, x: &Explore) -> Result<(), ModelFault>
    ensures { IsTested result (rollups_line x.now) }
{
    for rollup in x.rollups.as_slice() {
        test_rollup(alloc, x, rollup)?;
    }
    Ok(())
}

fn test_rollup(alloc: Global, x: &Explore, rollup: &Rollup) -> Result<(), ModelFault>
    ensures { IsTested result (rollup_line x.now rollup.now) }
{
    let joins = rollup_joins(alloc, x, rollup)?;
    let measures = components(alloc, x, rollup.measures.as_slice())?;
    test_measures(
        alloc,
        rollup.name.as_str(),
        x,
        joins.as_slice(),
        measures.as_slice(),
    )
}

// The joins that the query of an aggregate table needs.
fn rollup_joins(alloc: Global, x: &Explore, rollup: &Rollup) -> Result<Items<u32>, NoMemory>
    ensures { IfOk result (λ joins. joins ≡ rollup_joins x.now rollup.now) }
{
    let picks = rollup_picks(alloc, rollup)?;
    let fields = fields_of(alloc, rollup.filters.as_slice())?;
    need_joins(alloc, x, picks.as_slice(), fields.as_slice())
}

fn rollup_picks(alloc: Global, rollup: &Rollup) -> Result<Items<Pick>, NoMemory>
    ensures { IfOk result (λ picks. picks ≡ map Dim rollup.now.dims ++ map Mea rollup.now.measures) }
{
    let mut picks = Items::new(alloc);
    for dim in rollup.dims.as_slice() {
        picks.push(Pick::Dim(*dim))?;
    }
    for measure in rollup.measures.as_slice() {
        picks.push(Pick::Mea(*measure))?;
    }
    Ok(picks)
}
