// A bound query's answer from the rows of its route.

ghost use Rattle.std.specs.Prelude.{◌≡◌, ◌<◌, ◌||◌, [], OnErr, OnOk, Ok, length, nat_lt, slice_index_or, true};
ghost use Rattle.lk_val.specs.Memory.{IsUnlessMemory};
ghost use Rattle.lk_semantics.specs.Derived.{explore_at};
ghost use Rattle.lk_semantics.specs.Resolved.{IsInModel};
ghost use Rattle.lk_table.specs.Contents.{rows_of_each};
ghost use Rattle.lk_keeps.specs.Keeps.{persists};
ghost use Rattle.lk_ask.specs.Asks.{is_no_memory};
ghost use Rattle.lk_answer.specs.Answers.{IsCountOf, answered, rolled_rows, rows_kept, told_at, told_rolled, told_where};
ghost use Rattle.lk_answer.specs.Routes.{LeadsTo, routed};

use crate::scratch::Scratch;
use lk_ask::{
    AskFault, Told, answer_bound, rows_read_decide_what_is_told, told_by,
    told_queries_are_those_asked,
};
use lk_edition::Edition;
use lk_fill::{fill, tables_read, wanted_rows_are_read};
use lk_gather::Counted;
use lk_keeps::fill_built;
use lk_regroup::answer_from_rollup;
use lk_regroup_laws::kept_groups_are_dated;
use lk_reply::reply_answer;
use lk_rollup::explore_of;
use lk_types::{Bound, Reply, Route, RouteFrom};
use std::alloc::Global;

/// The answer of a query of the edition's model, or its refusal. After an answer `scratch` counts what it comes of, and after a
/// refusal it is as it was.
pub(crate) fn answer(
    alloc: Global,
    e: &Edition,
    bound: Bound,
    now: i64,
    csv: bool,
    scratch: &mut Scratch,
) -> Result<Reply, AskFault>
    requires { IsInModel e.now.model bound }
    ensures reply { IsUnlessMemory is_no_memory result (answered e.now now csv (Ok bound)) }
    ensures counts { OnOk result (IsCountOf e.now bound now scratch.new) }
    ensures none { OnErr result (scratch.new ≡ scratch.old) }
{
    told_queries_are_those_asked();
    let route = route_of(e, &bound);
    let x = explore_of(e.model(), bound.explore);
    let rolled = rolled_rows(e, bound.explore, route.from);
    match told_where(alloc, e, route.from, bound, now) {
        Ok(told) => {
            let reply = reply_answer(alloc, x, &told, route.number, is_csv(&told, csv))?;
            *scratch = Scratch {
                joined_rows: told.visited,
                rollup_rows: rolled,
            };
            Ok(reply)
        }
        Err(fault) => Err(fault),
    }
}

// Whether an answer is in CSV: where its caller or the query asks so.
fn is_csv(told: &Told, csv: bool) -> bool
    ensures { result ≡ (csv || told.now.bound.csv) }
{
    csv || told.bound.csv
}

// The route of a query: to an aggregate table that fits it, to the build of the datagroup that it reaches, or to the current tables.
fn route_of(e: &Edition, bound: &Bound) -> Route
    requires { IsInModel e.now.model bound.now }
    ensures route { result ≡ routed e.now bound.now }
    ensures leads { LeadsTo e.now.model bound.now result.from }
{
    e.stands();
    e.ready().route(e.model(), e.builds(), e.number(), bound)
}

// How many rows of an aggregate table are gone over on a route.
fn rolled_rows(e: &Edition, explore: u32, from: RouteFrom) -> u64
    ensures { result ≡ rolled_rows e.now.keeps explore from }
{
    match from {
        RouteFrom::Rollup(r) => e.keeps().rollup(explore, r).len() as u64,
        RouteFrom::Build(_) | RouteFrom::Current => 0,
    }
}

// What a query is told where its route leads.
fn told_where(
    alloc: Global,
    e: &Edition,
    from: RouteFrom,
    bound: Bound,
    now: i64,
) -> Result<Told, AskFault>
    requires query { IsInModel e.now.model bound }
    requires leads { LeadsTo e.now.model bound from }
    ensures { IsUnlessMemory is_no_memory result (told_where e.now now bound from) }
{
    match from {
        RouteFrom::Rollup(r) => told_rolled(alloc, e, r, bound),
        RouteFrom::Build(group) => told_built(alloc, e, group, bound, now),
        RouteFrom::Current => told_currently(alloc, e, bound, now),
    }
}

// What a query is told from the rows of an aggregate table that fits it.
fn told_rolled(alloc: Global, e: &Edition, r: u32, bound: Bound) -> Result<Told, AskFault>
    requires query { IsInModel e.now.model bound }
    requires rollup { nat_lt r (length (explore_at e.now.model bound.explore).rollups) ≡ true }
    ensures { IsUnlessMemory is_no_memory result
        (told_rolled (explore_at e.now.model bound.explore) r (rows_kept e.now.keeps bound.explore r) bound) }
{
    e.stands();
    kept_groups_are_dated();
    let m = e.model();
    let rows = e.keeps().rollup(bound.explore, r);
    let answer = answer_from_rollup(alloc, m, r, rows, &bound)?;
    let x = explore_of(m, bound.explore);
    told_by(alloc, x, bound, Counted { answer, rows: 0 })
}

// What a query is told over the tables of a datagroup's build.
fn told_built(
    alloc: Global,
    e: &Edition,
    group: u32,
    bound: Bound,
    now: i64,
) -> Result<Told, AskFault>
    requires query { IsInModel e.now.model bound }
    requires group { group < length e.now.model.datagroups }
    requires persists { persists e.now.model group ≡ true }
    ensures { IsUnlessMemory is_no_memory result (told_at e.now.model now (slice_index_or e.now.keeps.tables group []) bound) }
{
    e.stands();
    wanted_rows_are_read();
    rows_read_decide_what_is_told();
    let m = e.model();
    let wanted = tables_read(alloc, explore_of(m, bound.explore), bound.joins.as_slice())?;
    let set = fill_built(alloc, m, e.order(), e.keeps(), group, wanted.as_slice())?;
    answer_bound(alloc, m, &set, bound, now)
}

// What a query is told over the current tables.
fn told_currently(alloc: Global, e: &Edition, bound: Bound, now: i64) -> Result<Told, AskFault>
    requires { IsInModel e.now.model bound }
    ensures { IsUnlessMemory is_no_memory result (told_at e.now.model now (rows_of_each e.now.state.tables) bound) }
{
    e.stands();
    wanted_rows_are_read();
    rows_read_decide_what_is_told();
    let m = e.model();
    let wanted = tables_read(alloc, explore_of(m, bound.explore), bound.joins.as_slice())?;
    if wanted.is_empty() {
        return answer_bound(alloc, m, e.set(), bound, now);
    }
    let set = fill(alloc, m, e.order(), e.tables(), &[], wanted.as_slice())?;
    answer_bound(alloc, m, &set, bound, now)
}
