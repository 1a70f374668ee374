ghost use Rattle.std.specs.Prelude.{◌≡◌, ◌+◌, [], IfErr, IfOk, length, true};
ghost use Rattle.lk_types.specs.Dates.{are_literals_dated};
ghost use Rattle.lk_semantics.specs.Answers.{dims_of, measure_at, ops_of};
ghost use Rattle.lk_semantics.specs.DatedRows.{are_joins_dated, are_sources_dated};
ghost use Rattle.lk_exec.specs.Places.{place_after};
ghost use Rattle.lk_exec.specs.Visits.{IsOver};
ghost use Rattle.lk_exec.specs.declared.visit.ExecFault.TheVariants.{Many};
ghost use Rattle.lk_filter.specs.PlacedModel.{placed_explore};
ghost use Rattle.lk_gather.specs.Asked.{IsPlan};
ghost use Rattle.lk_gather.specs.Gathers.{HasGathered, HasVisited, rows_seen};
ghost use Rattle.lk_gather.specs.Measures.{is_fine_explore};

use crate::asked::{Asked, dims_of};
use lk_agg::{Acc, AccShape};
use lk_exec::{ExecFault, LentRow, VisitLent, visible_lent};
use lk_lines::query_components;
use lk_table::TableSet;
use lk_types::{Explore, Op, Pick, Plan};
use lk_val::{Items, NoMemory};
use std::alloc::Global;

// Gives the passing ones of the visible rows to an accumulator, each with its place among them.
#[derive(Drop)]
pub(crate) struct Gather<'q, 'a> {
    pub(crate) alloc: Global,
    pub(crate) asked: &'q Asked<'a>,
    pub(crate) acc: Acc,
    pub(crate) count: u64,
}

impl<'q, 'a> VisitLent for Gather<'q, 'a> {
    ghost use Rattle.std.specs.Prelude.{◌≡◌};
    ghost use Rattle.lk_filter.specs.PlacedModel.{placed_explore};
    ghost use Rattle.lk_gather.specs.Gathers.{HasGathered};

    ghost has_seen = { λ start gather seen. (gather.asked.now ≡ start.asked.now)
        × HasGathered (placed_explore start.asked.now.moment start.asked.now.explore.now) start.asked.now.plan.now
        gather.acc gather.count seen };

    fn lent_row(&mut self, row: &LentRow<'_>, _place: u64) -> Result<(), NoMemory> {
        if !self.asked.passes(self.alloc, row)? {
            return Ok(());
        }
        let group = self.asked.group(self.alloc, row)?;
        let cells = self.asked.cells(self.alloc, row)?;
        if self.count == u64::MAX {
            return Err(NoMemory);
        }
        self.acc
            .add(group.as_slice(), cells.as_slice(), self.count)?;
        self.count += 1;
        Ok(())
    }
}

/// Gives the passing ones of the visible rows to an accumulator that was given none before, and counts the visible ones.
pub(crate) fn gather_rows(
    alloc: Global,
    sources: &TableSet,
    cap: Option<u64>,
    asked: &Asked<'_>,
    acc: Acc,
) -> Result<(Acc, u64), ExecFault>
    requires first { HasGathered (placed_explore asked.now.moment asked.now.explore.now) asked.now.plan.now acc 0 [] }
    requires parts { length asked.now.explore.now.parts ≡ length asked.now.explore.now.joins + 1 }
    requires tables { are_sources_dated sources.now ≡ true }
    requires conditions { are_joins_dated asked.now.explore.now ≡ true }
    requires literals { are_literals_dated asked.now.plan.now.visible ≡ true }
    ensures visited { IfOk result (λ gathered. HasVisited (placed_explore asked.now.moment asked.now.explore.now)
        asked.now.plan.now cap (rows_seen asked.now.explore.now sources.now asked.now.plan.now) gathered.0) }
    ensures count { IfOk result (λ gathered. gathered.1
        ≡ place_after (rows_seen asked.now.explore.now sources.now asked.now.plan.now)) }
    ensures many { IfErr result (λ fault. fault ≡ Many
        → IsOver cap (rows_seen asked.now.explore.now sources.now asked.now.plan.now)) }
{
    let mut gather = Gather {
        alloc,
        asked,
        acc,
        count: 0,
    };
    match visible_lent(
        alloc,
        asked.explore,
        sources,
        asked.plan.bound.joins.as_slice(),
        &asked.plan.visible,
        cap,
        &mut gather,
    ) {
        Err(fault) => Err(fault),
        Ok(rows) => {
            let Gather { acc, .. } = gather;
            Ok((acc, rows))
        }
    }
}

/// Gives the passing ones of a query's visible rows at a moment to an accumulator of its dimensions and components, and
/// counts the visible ones, or `Many` where a cap is given and there are more.
pub(crate) fn gathered(
    alloc: Global,
    explore: &Explore,
    sources: &TableSet,
    plan: &Plan,
    cap: Option<u64>,
    now: i64,
) -> Result<(Acc, u64), ExecFault>
    requires parts { length explore.now.parts ≡ length explore.now.joins + 1 }
    requires explore { is_fine_explore explore.now ≡ true }
    requires conditions { are_joins_dated explore.now ≡ true }
    requires tables { are_sources_dated sources.now ≡ true }
    requires plan { IsPlan explore.now sources.now plan.now }
    ensures visited { IfOk result (λ gathered. HasVisited (placed_explore now explore.now) plan.now cap
        (rows_seen explore.now sources.now plan.now) gathered.0) }
    ensures count { IfOk result (λ gathered. gathered.1 ≡ place_after (rows_seen explore.now sources.now plan.now)) }
    ensures many { IfErr result (λ fault. fault ≡ Many → IsOver cap (rows_seen explore.now sources.now plan.now)) }
{
    let components = query_components(alloc, explore, &plan.bound)?;
    let shape = AccShape {
        dims: dims_count(alloc, plan.bound.picks.as_slice())?,
        ops: ops_of(alloc, explore, components.as_slice())?,
    };
    let asked = Asked::new(alloc, explore, plan, components.as_slice(), now)?;
    gather_rows(alloc, sources, cap, &asked, Acc::new(alloc, shape)?)
}

fn dims_count(alloc: Global, picks: &[Pick]) -> Result<u32, NoMemory>
    ensures { IfOk result (λ count. count ≡ length (dims_of picks.now)) }
{
    u32::try_from(dims_of(alloc, picks)?.len()).map_err(|_| NoMemory)
}

fn ops_of(alloc: Global, explore: &Explore, components: &[u32]) -> Result<Items<Op>, NoMemory>
    ensures { IfOk result (λ ops. ops ≡ ops_of explore.now components.now) }
{
    let mut ops = Items::new(alloc);
    for number in components {
        ops.push(op_at(explore, *number))?;
    }
    Ok(ops)
}

fn op_at(explore: &Explore, number: u32) -> Op
    ensures { result ≡ (measure_at explore.now number).op }
{
    match explore.measures.as_slice().get(number as usize) {
        Some(measure) => measure.op,
        None => Op::Count,
    }
}
