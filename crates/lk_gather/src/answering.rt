ghost use Rattle.std.specs.Prelude.{◌≡◌, ◌+◌, ℕ, ℤ, Err, IfErr, IfOk, List, Ok, Option, filter, length, slice_index, true};
ghost use Rattle.lk_val.specs.declared.value.Value.{Value};
ghost use Rattle.lk_types.specs.declared.answer.Answer.{Answer as AnyAnswer};
ghost use Rattle.lk_types.specs.declared.rows.Joined.{Joined};
ghost use Rattle.lk_semantics.specs.Answers.{answer_of, answer_over, answer_unless};
ghost use Rattle.lk_semantics.specs.DatedRows.{are_joins_dated, are_sources_dated};
ghost use Rattle.lk_semantics.specs.Rows.{visible_rows};
ghost use Rattle.lk_exec.specs.Places.{place_after};
ghost use Rattle.lk_exec.specs.Visits.{IsOver, IsWithin};
ghost use Rattle.lk_agg.specs.Finishing.{IsFaultOf};
ghost use Rattle.lk_filter.specs.PlacedModel.{placed_explore};
ghost use Rattle.lk_gather.specs.Asked.{IsPlan, does_pass};
ghost use Rattle.lk_gather.specs.Gathers.{HasGathered};
ghost use Rattle.lk_gather.specs.Measures.{is_fine_explore};
ghost use Rattle.lk_exec.specs.declared.visit.ExecFault.TheVariants.{Many};

use crate::gather::gathered;
use lk_agg::{Acc, AggFault, given_rows_are_regular};
use lk_exec::ExecFault;
use lk_lines::{answer_lines, query_components};
use lk_table::TableSet;
use lk_types::{Answer, Explore, Plan};
use std::alloc::Global;

/// An answer, and how many visible rows it went over.
#[derive(Drop)]
pub struct Counted {
    pub answer: Answer,
    pub rows: u64,
}

/// The answer to a query at a moment over tables, or `Many` (X1) where a cap is given and more rows are visible. It goes
/// once over the visible rows and keeps none of them: the groups with what each keeps for its measures, and then their
/// lines. `now` counts seconds from 1970-01-01 00:00:00 UTC: the relative dates in the filters of the query's measures
/// stand for the days that they name then. (lookd)
pub fn answer(
    alloc: Global,
    explore: &Explore,
    sources: &TableSet,
    plan: &Plan,
    cap: Option<u64>,
    now: i64,
) -> Result<Counted, ExecFault>
    requires parts { length explore.now.parts ≡ length explore.now.joins + 1 }
    requires explore { is_fine_explore explore.now ≡ true }
    requires conditions { are_joins_dated explore.now ≡ true }
    requires tables { are_sources_dated sources.now ≡ true }
    requires plan { IsPlan explore.now sources.now plan.now }
    ensures answer { IfOk result (λ counted. counted.answer
        ≡ answer_of (placed_explore now explore.now) sources.now plan.now.bound) }
    ensures rows { IfOk result (λ counted. counted.rows
        ≡ place_after (visible_rows (placed_explore now explore.now) sources.now plan.now.bound)) }
    ensures within { IfOk result (λ counted. IsWithin cap
        (visible_rows (placed_explore now explore.now) sources.now plan.now.bound)) }
    ensures many { IfErr result (λ fault. fault ≡ Many → IsOver cap
        (visible_rows (placed_explore now explore.now) sources.now plan.now.bound)) }
{
    match gathered(alloc, explore, sources, plan, cap, now) {
        Err(fault) => Err(fault),
        Ok((acc, rows)) => with_rows(finish(alloc, explore, plan, acc), rows),
    }
}

// An answer, if there is one, with the number of its visible rows.
fn with_rows(answer: Result<Answer, ExecFault>, rows: u64) -> Result<Counted, ExecFault>
    ensures answer { IfOk result (λ counted. answer ≡ Ok counted.answer) }
    ensures rows { IfOk result (λ counted. counted.rows ≡ rows) }
    ensures fault { IfErr result (λ fault. answer ≡ Err fault) }
{
    Ok(Counted {
        answer: answer?,
        rows,
    })
}

// The answer from the groups of the passing rows at a moment.
fn finish(alloc: Global, explore: &Explore, plan: &Plan, acc: Acc) -> Result<Answer, ExecFault>
    ensures answer { (now : ℤ) (count : ℕ) (seen : List Joined) → HasGathered (placed_explore now explore.now) plan.now acc count seen
        → IfOk result (λ answer. answer ≡ answer_over (placed_explore now explore.now) plan.now.bound (filter (does_pass plan.now) seen)) }
    ensures many { IfErr result (λ fault. fault ≡ Many → ⊥) }
{
    given_rows_are_regular();
    match acc.finish() {
        Ok(groups) => Ok(answer_lines(alloc, explore, &plan.bound, groups)?),
        Err(fault) => {
            let components = query_components(alloc, explore, &plan.bound)?;
            refused_by(components.as_slice(), fault)
        }
    }
}

// The answer that the least conflict gives in place of another.
fn refused_by(components: &[u32], fault: AggFault) -> Result<Answer, ExecFault>
    ensures answer { (conflict : Option (ℕ × Value)) (other : AnyAnswer) → IsFaultOf fault conflict
        → IfOk result (λ answer. answer ≡ answer_unless components.now conflict other) }
    ensures many { IfErr result (λ fault. fault ≡ Many → ⊥) }
{
    match fault {
        AggFault::Conflict { measure, key } => Ok(Answer::Duplicate(
            number_at(components, measure),
            key,
        )),
        AggFault::NoMemory => Err(ExecFault::NoMemory),
    }
}

// The number at a place, and 0 past the last.
fn number_at(numbers: &[u32], place: u32) -> u32
    ensures { result ≡ slice_index numbers.now place }
{
    match numbers.get(place as usize) {
        Some(number) => *number,
        None => 0,
    }
}
