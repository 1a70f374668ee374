ghost use Rattle.std.specs.Prelude.{◌≡◌, ◌+◌, Err, IfOk, length, nat_lt, true};
ghost use Rattle.lk_val.specs.Memory.{IsUnlessMemory};
ghost use Rattle.lk_semantics.specs.Answers.{measure_at};
ghost use Rattle.lk_semantics.specs.DatedRows.{are_joins_dated, are_sources_dated};
ghost use Rattle.lk_semantics.specs.Derived.{explore_at};
ghost use Rattle.lk_semantics.specs.Resolved.{IsInModel, IsResolved};
ghost use Rattle.lk_derived.specs.ReadRows.{HasRowsFor};
ghost use Rattle.lk_filter.specs.PlacedModel.{placed_explore, placed_model};
ghost use Rattle.lk_gather.specs.Asked.{IsPlan};
ghost use Rattle.lk_gather.specs.Measures.{is_fine_explore};
ghost use Rattle.lk_ask.specs.Asks.{is_no_memory, told_by, told_over};
ghost use Rattle.lk_ask.specs.Counts.{IsCounted};
ghost use Rattle.lk_ask.specs.declared.fault.AskFault.TheVariants as fault;

use crate::fault::AskFault;
use crate::told::Told;
use lk_derived::rows_read_are_dated;
use lk_exec::ExecFault;
use lk_gather::{Counted, answer, resolved_explores_are_fine};
use lk_plan::{compile, conditions_are_dated, joined_rows_meet_conditions};
use lk_table::TableSet;
use lk_types::{Answer, Bound, Explore, Model, Plan};
use lk_val::{NoMemory, Text, Value};
use std::alloc::Global;

// The most visible rows that a query goes over.
const MOST_ROWS: u64 = 1_000_000;

/// What a query of a resolved model is told over tables that have the rows which it reads, or its first refusal: more than
/// 1,000,000 visible rows (Q10), then two values of a measure for one key (Q9). `now` counts seconds from 1970-01-01 00:00:00 UTC:
/// relative dates in the filters of its measures stand for the days that they name then. `sources` are the stored tables with the
/// rows of derived ones. (lookd)
pub fn answer_bound(
    alloc: Global,
    m: &Model,
    sources: &TableSet,
    bound: Bound,
    now: i64,
) -> Result<Told, AskFault>
    requires model { IsResolved m.now }
    requires bound { IsInModel m.now bound }
    requires tables { HasRowsFor m.now sources.now bound }
    ensures { IsUnlessMemory is_no_memory result
        (told_over (explore_at (placed_model now m.now) bound.explore) sources.now bound) }
{
    match counted_of(alloc, m, sources, &bound, now) {
        Err(fault) => Err(fault),
        Ok(counted) => told_by(alloc, explore_of(m, bound.explore), bound, counted),
    }
}

// The answer to a query of a resolved model.
fn counted_of(
    alloc: Global,
    m: &Model,
    sources: &TableSet,
    bound: &Bound,
    now: i64,
) -> Result<Counted, AskFault>
    requires model { IsResolved m.now }
    requires bound { IsInModel m.now bound.now }
    requires tables { HasRowsFor m.now sources.now bound.now }
    ensures { IsCounted (explore_at m.now bound.now.explore) (explore_at (placed_model now m.now) bound.now.explore)
        sources.now bound.now result }
{
    resolved_explores_are_fine();
    joined_rows_meet_conditions();
    conditions_are_dated();
    rows_read_are_dated();
    let plan = compile(alloc, m, bound)?;
    let x = explore_of(m, bound.explore);
    counted_by(alloc, x, sources, &plan, now)
}

// The answer by a plan.
fn counted_by(
    alloc: Global,
    x: &Explore,
    sources: &TableSet,
    plan: &Plan,
    now: i64,
) -> Result<Counted, AskFault>
    requires parts { length x.now.parts ≡ length x.now.joins + 1 }
    requires explore { is_fine_explore x.now ≡ true }
    requires conditions { are_joins_dated x.now ≡ true }
    requires tables { are_sources_dated sources.now ≡ true }
    requires plan { IsPlan x.now sources.now plan.now }
    ensures { IsCounted x.now (placed_explore now x.now) sources.now plan.now.bound result }
{
    match answer(alloc, x, sources, plan, Some(MOST_ROWS), now) {
        Err(ExecFault::Many) => Err(AskFault::Q10),
        Err(ExecFault::NoMemory) => Err(AskFault::NoMemory),
        Ok(counted) => Ok(counted),
    }
}

// The explore of a number.
fn explore_of(m: &Model, number: u32) -> &Explore
    requires { nat_lt number (length m.now.explores) ≡ true }
    ensures { result.now ≡ explore_at m.now number }
{
    &m.explores.as_slice()[number as usize]
}

/// What a query is told whose answer is this, and comes of so many visible rows: the answer's lines, or the key for which a measure
/// has two values (Q9). `x` is the explore that the query asks. (lookd)
pub fn told_by(alloc: Global, x: &Explore, bound: Bound, counted: Counted) -> Result<Told, AskFault>
    ensures { IsUnlessMemory is_no_memory result (told_by x.now bound counted.rows counted.answer) }
{
    let Counted {
        answer,
        rows: visited,
    } = counted;
    match answer {
        Answer::Table(rows, complete) => Ok(Told {
            bound,
            rows,
            complete,
            visited,
        }),
        Answer::Duplicate(measure, key) => duplicate(alloc, x, measure, key),
    }
}

// The refusal for a key.
fn duplicate(alloc: Global, x: &Explore, measure: u32, key: Value) -> Result<Told, AskFault>
    ensures { IsUnlessMemory is_no_memory result (Err (fault.Q9 (measure_at x.now measure).name key)) }
{
    Err(AskFault::Q9 {
        measure: measure_name(alloc, x, measure)?,
        key,
    })
}

// The name of a measure; one that is not there has none.
fn measure_name(alloc: Global, x: &Explore, measure: u32) -> Result<Text, NoMemory>
    ensures { IfOk result (λ name. name ≡ (measure_at x.now measure).name) }
{
    match x.measures.as_slice().get(measure as usize) {
        Some(measure) => measure.name.copy(alloc),
        None => Ok(Text::new(alloc)),
    }
}
