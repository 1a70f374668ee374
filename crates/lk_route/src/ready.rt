// What is asked of a model's aggregate tables whenever a query is routed.

ghost use Rattle.std.specs.Prelude.{◌≡◌, IfOk, OnOk, length, map, true};
ghost use Rattle.std.specs.List.{list_all};
ghost use Rattle.lk_semantics.specs.Joins.{numbers_below};
ghost use Rattle.lk_semantics.specs.Resolved.{IsResolved};
ghost use Rattle.lk_semantics.specs.Rollups.{rollup_joins};
ghost use Rattle.lk_route.specs.Ready.{IsReadyFor, does_regroup, has_few_rollups, is_known, measure_over, ready_components, ready_join, ready_measure, ready_rollup, ready_rollups};

use crate::keeping::keeps_rows;
use crate::regrouping::regroups;
use lk_fill::groups_reached;
use lk_rollup::rollup_query;
use lk_tree::components;
use lk_types::{Explore, Model, Rollup};
use lk_val::{Items, NoMemory};
use std::alloc::Global;

/// What is asked of a model's aggregate tables and derived tables whenever a query is routed, made once for a model. (lookd)
#[derive(Drop)]
pub struct Ready {
    // By explore, and by their numbers there.
    pub(crate) rollups: Items<Items<ReadyRollup>>,
    // By derived table: the datagroup to which reading it comes first.
    pub(crate) groups: Items<Option<u32>>,
}

/// What is asked of an aggregate table.
#[derive(Drop)]
pub(crate) struct ReadyRollup {
    // The joins of its query.
    pub(crate) joins: Items<ReadyJoin>,
    // By the numbers of its explore's measures.
    pub(crate) measures: Items<ReadyMeasure>,
}

/// A join, and whether it leaves the rows before it as they were.
#[derive(Clone, Copy)]
pub(crate) struct ReadyJoin {
    pub(crate) join: u32,
    pub(crate) keeps_rows: bool,
}

/// What an aggregate table has of a measure.
#[derive(Clone, Copy)]
pub(crate) struct ReadyMeasure {
    // All that it is put together from.
    pub(crate) is_had: bool,
    // All of that, and it may be put together from finer groups.
    pub(crate) regroups: bool,
}

// A component of an aggregate table's measures, and whether it may be put together from finer groups.
#[derive(Clone, Copy)]
pub(crate) struct Component {
    pub(crate) measure: u32,
    pub(crate) regroups: bool,
}

impl Ready {
    /// What is asked of a model's aggregate tables and derived tables. (lookd)
    pub fn new(alloc: Global, m: &Model) -> Result<Ready, NoMemory>
        requires { IsResolved m.now }
        ensures { IfOk result (IsReadyFor m.now) }
    {
        let mut rollups = Items::new(alloc);
        for x in m.explores.as_slice() {
            rollups.push(ready_rollups(alloc, x)?)?;
        }
        let groups = groups_reached(alloc, m)?;
        Ok(Ready { rollups, groups })
    }
}

fn ready_rollups(alloc: Global, x: &Explore) -> Result<Items<ReadyRollup>, NoMemory>
    ensures ready { IfOk result (λ ready. ready ≡ ready_rollups x.now) }
    ensures few { OnOk result (has_few_rollups x.now ≡ true) }
{
    // An aggregate table's number has 32 bits, so there is no room for more of them.
    if x.rollups.len() > 0xffff_ffff {
        return Err(NoMemory);
    }
    let mut ready = Items::new(alloc);
    for r in x.rollups.as_slice() {
        ready.push(ready_rollup(alloc, x, r)?)?;
    }
    Ok(ready)
}

fn ready_rollup(alloc: Global, x: &Explore, r: &Rollup) -> Result<ReadyRollup, NoMemory>
    ensures { IfOk result (λ ready. ready ≡ ready_rollup x.now r.now) }
{
    // Which explore it is plays no part in the joins.
    let query = rollup_query(alloc, x, 0, r)?;
    ready_over(alloc, x, r, query.joins.as_slice())
}

// What is asked of an aggregate table, where these are the joins of its query.
fn ready_over(
    alloc: Global,
    x: &Explore,
    r: &Rollup,
    joins: &[u32],
) -> Result<ReadyRollup, NoMemory>
    requires { joins.now ≡ rollup_joins x.now r.now }
    ensures { IfOk result (λ ready. ready ≡ ready_rollup x.now r.now) }
{
    let components = ready_components(alloc, x, r, joins)?;
    let measures = ready_measures(alloc, x, r, components.as_slice())?;
    let joins = ready_joins(alloc, x, joins)?;
    Ok(ReadyRollup { joins, measures })
}

fn ready_joins(alloc: Global, x: &Explore, joins: &[u32]) -> Result<Items<ReadyJoin>, NoMemory>
    ensures { IfOk result (λ ready. ready ≡ map (ready_join x.now) joins.now) }
{
    let mut ready = Items::new(alloc);
    for join in joins {
        ready.push(ReadyJoin {
            join: *join,
            keeps_rows: keeps_rows(alloc, x, *join)?,
        })?;
    }
    Ok(ready)
}

// The components of an aggregate table's measures, where these are the joins of its query.
fn ready_components(
    alloc: Global,
    x: &Explore,
    r: &Rollup,
    joins: &[u32],
) -> Result<Items<Component>, NoMemory>
    requires { joins.now ≡ rollup_joins x.now r.now }
    ensures { IfOk result (λ ready. ready ≡ ready_components x.now r.now) }
{
    let components = components(alloc, x, r.measures.as_slice())?;
    let mut ready = Items::new(alloc);
    for measure in components.as_slice() {
        ready.push(Component {
            measure: *measure,
            regroups: regroups(alloc, x, r, joins, *measure)?,
        })?;
    }
    Ok(ready)
}

// What an aggregate table has of each measure of its explore, where these are the components that it has.
fn ready_measures(
    alloc: Global,
    x: &Explore,
    r: &Rollup,
    known: &[Component],
) -> Result<Items<ReadyMeasure>, NoMemory>
    requires { known.now ≡ ready_components x.now r.now }
    ensures { IfOk result (λ ready. ready ≡ map (ready_measure x.now r.now) (numbers_below (length x.now.measures))) }
{
    // A measure's number has 32 bits, so there is no room for more measures.
    if x.measures.len() > 0xffff_ffff {
        return Err(NoMemory);
    }
    let mut ready = Items::new(alloc);
    for measure in 0..x.measures.len() {
        ready.push(ready_measure(alloc, x, r, known, measure as u32)?)?;
    }
    Ok(ready)
}

fn ready_measure(
    alloc: Global,
    x: &Explore,
    r: &Rollup,
    known: &[Component],
    measure: u32,
) -> Result<ReadyMeasure, NoMemory>
    requires { known.now ≡ ready_components x.now r.now }
    ensures { IfOk result (λ ready. ready ≡ ready_measure x.now r.now measure) }
{
    let components = components(alloc, x, &[measure])?;
    Ok(measure_over(known, components.as_slice()))
}

// What there is of a measure that is put together from some components.
fn measure_over(known: &[Component], components: &[u32]) -> ReadyMeasure
    ensures { result ≡ measure_over known.now components.now }
{
    ReadyMeasure {
        is_had: are_known(known, components),
        regroups: do_regroup(known, components),
    }
}

fn are_known(known: &[Component], components: &[u32]) -> bool
    ensures { result ≡ list_all (is_known known.now) components.now }
{
    components.iter().all(|measure| is_known(known, *measure))
}

fn do_regroup(known: &[Component], components: &[u32]) -> bool
    ensures { result ≡ list_all (does_regroup known.now) components.now }
{
    components
        .iter()
        .all(|measure| does_regroup(known, *measure))
}

fn is_known(known: &[Component], measure: u32) -> bool
    ensures { result ≡ is_known known.now measure }
{
    known.iter().any(|component| measure == component.measure)
}

fn does_regroup(known: &[Component], measure: u32) -> bool
    ensures { result ≡ does_regroup known.now measure }
{
    known.iter().any(|component| measure == component.measure && component.regroups)
}
