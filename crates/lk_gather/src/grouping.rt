// The groups of a query, all of them: with their cells, and with the parts that an aggregate table keeps.

ghost use Rattle.std.specs.Prelude.{◌≡◌, ◌+◌, IfErr, IfOk, None, length, true};
ghost use Rattle.std.specs.Option.{is_some};
ghost use Rattle.lk_val.specs.Memory.{Unless};
ghost use Rattle.lk_semantics.specs.Answers.{dims_of, ops_of, query_components};
ghost use Rattle.lk_semantics.specs.DatedRows.{are_joins_dated, are_sources_dated};
ghost use Rattle.lk_agg.specs.Gathering.{HasTaken};
ghost use Rattle.lk_filter.specs.PlacedModel.{placed_explore};
ghost use Rattle.lk_gather.specs.Asked.{IsPlan};
ghost use Rattle.lk_gather.specs.Groups.{conflict_over, fault_of, given_to, groups_over, is_no_memory, parts_over};
ghost use Rattle.lk_gather.specs.Measures.{is_fine_explore};

use crate::gather::gathered;
use lk_agg::{Acc, AggFault, given_rows_are_regular, partials};
use lk_exec::ExecFault;
use lk_table::TableSet;
use lk_types::{Explore, GroupRow, Partial, Plan};
use lk_val::{Items, NoMemory, Value};
use std::alloc::Global;

/// Why a query has no groups.
#[derive(Drop)]
pub enum GatherFault {
    /// Two rows of a group have one key and different values for a measure. (Q9)
    Conflict,
    /// Want of memory.
    NoMemory,
}

impl From<NoMemory> for GatherFault {
    ghost use Rattle.std.specs.Prelude.{◌≡◌};
    ghost use Rattle.lk_gather.specs.declared.grouping.GatherFault.TheVariants as fault;

    ghost from_gives = { λ _ e. e ≡ fault.NoMemory };

    fn from(_: NoMemory) -> GatherFault {
        GatherFault::NoMemory
    }
}

/// The groups of a query at a moment over tables, ascending, each with the cells of its components: those of `answer`
/// before they become lines, however many rows are visible. (lookd)
pub fn groups(
    alloc: Global,
    explore: &Explore,
    sources: &TableSet,
    plan: &Plan,
    now: i64,
) -> Result<Items<GroupRow>, GatherFault>
    requires parts { length explore.now.parts ≡ length explore.now.joins + 1 }
    requires explore { is_fine_explore explore.now ≡ true }
    requires conditions { are_joins_dated explore.now ≡ true }
    requires tables { are_sources_dated sources.now ≡ true }
    requires plan { IsPlan explore.now sources.now plan.now }
    ensures ok { IfOk result (λ groups.
        (conflict_over (placed_explore now explore.now) sources.now plan.now.bound ≡ None)
        × (groups ≡ groups_over (placed_explore now explore.now) sources.now plan.now.bound)) }
    ensures conflict { IfErr result (λ fault. Unless (is_no_memory fault)
        (is_some (conflict_over (placed_explore now explore.now) sources.now plan.now.bound) ≡ true)) }
{
    given_rows_are_regular();
    match all_gathered(alloc, explore, sources, plan, now)?.finish() {
        Ok(groups) => Ok(groups),
        Err(fault) => Err(fault_of(fault)),
    }
}

/// The groups of a query at a moment over tables, ascending, each with the parts that an aggregate table keeps of its
/// components. (lookd)
pub fn kept_parts(
    alloc: Global,
    explore: &Explore,
    sources: &TableSet,
    plan: &Plan,
    now: i64,
) -> Result<Items<(Items<Value>, Items<Partial>)>, GatherFault>
    requires parts { length explore.now.parts ≡ length explore.now.joins + 1 }
    requires explore { is_fine_explore explore.now ≡ true }
    requires conditions { are_joins_dated explore.now ≡ true }
    requires tables { are_sources_dated sources.now ≡ true }
    requires plan { IsPlan explore.now sources.now plan.now }
    ensures ok { IfOk result (λ groups.
        (conflict_over (placed_explore now explore.now) sources.now plan.now.bound ≡ None)
        × (groups ≡ parts_over (placed_explore now explore.now) sources.now plan.now.bound)) }
    ensures conflict { IfErr result (λ fault. Unless (is_no_memory fault)
        (is_some (conflict_over (placed_explore now explore.now) sources.now plan.now.bound) ≡ true)) }
{
    given_rows_are_regular();
    match partials(all_gathered(alloc, explore, sources, plan, now)?) {
        Ok(groups) => Ok(groups),
        Err(fault) => Err(fault_of(fault)),
    }
}

// What the rows give that a query counts, gathered.
fn all_gathered(
    alloc: Global,
    explore: &Explore,
    sources: &TableSet,
    plan: &Plan,
    now: i64,
) -> Result<Acc, NoMemory>
    requires parts { length explore.now.parts ≡ length explore.now.joins + 1 }
    requires explore { is_fine_explore explore.now ≡ true }
    requires conditions { are_joins_dated explore.now ≡ true }
    requires tables { are_sources_dated sources.now ≡ true }
    requires plan { IsPlan explore.now sources.now plan.now }
    ensures { IfOk result (λ acc. HasTaken acc (length (dims_of plan.now.bound.picks))
        (ops_of (placed_explore now explore.now) (query_components (placed_explore now explore.now) plan.now.bound))
        (given_to (placed_explore now explore.now) sources.now plan.now.bound)) }
{
    match gathered(alloc, explore, sources, plan, None, now) {
        Ok((acc, _)) => Ok(acc),
        Err(ExecFault::NoMemory) => Err(NoMemory),
        // Without a cap no number of rows is too many.
        Err(ExecFault::Many) => unreachable!(),
    }
}

fn fault_of(fault: AggFault) -> GatherFault
    ensures { result ≡ fault_of fault }
{
    match fault {
        AggFault::Conflict { .. } => GatherFault::Conflict,
        AggFault::NoMemory => GatherFault::NoMemory,
    }
}
