// What a query of a caller binds to.

ghost use Rattle.std.specs.Prelude.{◌≡◌, ◌<◌, ◌≤◌, Err, IfErr, IfOk, Ok, length};
ghost use Rattle.std.specs.List.{AllByRecursion};
ghost use Rattle.lk_val.specs.Memory.{IsUnlessMemory, Unless, UnlessMemory};
ghost use Rattle.lk_semantics.specs.Derived.{explore_at};
ghost use Rattle.lk_body.specs.Faults.{is_no_memory};
ghost use Rattle.lk_query.specs.RequestFilters.{AreFiltersOf};
ghost use Rattle.lk_query.specs.Bindings.{IsBodyBound, IsBound, IsBoundFrom, bound_of, bound_with, checked, request_of};

use crate::callers::{find_explore, find_user};
use crate::filters::{Filters, filters_at};
use crate::measures::{first_repeated, query_joins, query_measures};
use crate::readings::read_texts;
use crate::request::{Request, request_of};
use lk_body::{QueryFault, read_query};
use lk_schema::Users;
use lk_types::{Bound, Explore, Filter, Model, Pick, Query};
use lk_val::{Items, NoMemory, Text};
use std::alloc::Global;

/// The query of a caller over an explore, by its name, with names as numbers and filters at a moment; or the first of its
/// refusals Q2, Q1, Q8, Q4, Q5, Q6, Q7. The model is as it was resolved, so its own filters are not at a moment yet, and
/// its explores have at most 31 joins. `now` counts seconds from 1970-01-01 00:00:00 UTC. (lookd)
pub fn bind(
    alloc: Global,
    m: &Model,
    users: &Users,
    user: &Text,
    explore: &Text,
    q: &Query,
    now: i64,
) -> Result<Bound, QueryFault>
    requires few { AllByRecursion (λ x. length x.joins ≤ 31) m.now.explores }
    ensures { UnlessMemory is_no_memory result
        (IsBound m.now users.now user.now explore.now q.now now) }
{
    find_user(alloc, users, user)?;
    let number = find_explore(alloc, m, explore)?;
    bind_over(alloc, m, users, user, number, q, now)
}

/// What a caller's body over an explore binds to, or the first of its refusals Q2, Q1, Q3, Q8, Q4, Q5, Q6, Q7: the body is
/// read where the user and the explore are known. Else as `bind`. (lookd)
pub fn bind_body(
    alloc: Global,
    m: &Model,
    users: &Users,
    user: &Text,
    explore: &Text,
    body: &[u8],
    now: i64,
) -> Result<Bound, QueryFault>
    requires few { AllByRecursion (λ x. length x.joins ≤ 31) m.now.explores }
    ensures { UnlessMemory is_no_memory result
        (IsBodyBound m.now users.now user.now explore.now body.now now) }
{
    find_user(alloc, users, user)?;
    let number = find_explore(alloc, m, explore)?;
    let q = read_query(alloc, body)?;
    bind_over(alloc, m, users, user, number, &q, now)
}

// The query of a caller over the explore of a number.
fn bind_over(
    alloc: Global,
    m: &Model,
    users: &Users,
    user: &Text,
    number: u32,
    q: &Query,
    now: i64,
) -> Result<Bound, QueryFault>
    requires few { AllByRecursion (λ x. length x.joins ≤ 31) m.now.explores }
    requires within { number < length m.now.explores }
    ensures { UnlessMemory is_no_memory result
        (IsBoundFrom (explore_at m.now number) number q.now now
        (request_of (explore_at m.now number) users.now user.now q.now)) }
{
    let x = explore_of(m, number);
    let request = request_of(alloc, x, users, user, q)?;
    bind_request(alloc, x, number, q, request, now)
}

fn explore_of(m: &Model, number: u32) -> &Explore
    requires few { AllByRecursion (λ x. length x.joins ≤ 31) m.now.explores }
    requires within { number < length m.now.explores }
    ensures at { result.now ≡ explore_at m.now number }
    ensures few { length result.now.joins ≤ 31 }
{
    &m.explores.as_slice()[number as usize]
}

// The request with its filters read.
fn bind_request(
    alloc: Global,
    x: &Explore,
    number: u32,
    q: &Query,
    request: Request,
    now: i64,
) -> Result<Bound, QueryFault>
    requires few { length x.now.joins ≤ 31 }
    ensures { UnlessMemory is_no_memory result (IsBoundFrom x.now number q.now now (Ok request)) }
{
    let filters = filters_of(alloc, x, &request, now)?;
    let bound = bound_with(alloc, x, number, q, request, filters)?;
    checked(alloc, x, bound)
}

// The filters of a request at a moment: its access filters are read, and then its own.
fn filters_of(
    alloc: Global,
    x: &Explore,
    request: &Request,
    now: i64,
) -> Result<Filters, QueryFault>
    ensures { UnlessMemory is_no_memory result (AreFiltersOf x.now now request.now) }
{
    let access = read_texts(alloc, request.access.as_slice())?;
    let filters = read_texts(alloc, request.filters.as_slice())?;
    Ok(filters_at(alloc, now, x, access.as_slice(), filters.as_slice())?)
}

fn bound_with(
    alloc: Global,
    x: &Explore,
    number: u32,
    q: &Query,
    request: Request,
    filters: Filters,
) -> Result<Bound, NoMemory>
    ensures { IfOk result (λ bound. bound ≡ bound_with x.now number q.now request filters) }
{
    let joins = query_joins(alloc, x, request.picks.as_slice(), &filters)?;
    Ok(Bound {
        explore: number,
        picks: request.picks,
        joins,
        access: filters.access,
        rows: filters.rows,
        having: filters.having,
        sorts: request.sorts,
        limit: request.limit,
        fresh: q.fresh,
        csv: q.csv,
    })
}

// The bound query, or Q7 for the first of its measures that counts repeated rows.
fn checked(alloc: Global, x: &Explore, bound: Bound) -> Result<Bound, QueryFault>
    requires few { length x.now.joins ≤ 31 }
    ensures { IsUnlessMemory is_no_memory result (checked x.now bound) }
{
    test_repeated(alloc, x, &bound)?;
    Ok(bound)
}

// Tests that no measure of a bound query counts repeated rows.
fn test_repeated(alloc: Global, x: &Explore, bound: &Bound) -> Result<(), QueryFault>
    requires few { length x.now.joins ≤ 31 }
    ensures ok { IfOk result (λ _. checked x.now bound.now ≡ Ok bound.now) }
    ensures fault { IfErr result (λ fault. Unless (is_no_memory fault) (checked x.now bound.now ≡ Err fault)) }
{
    let measures = query_measures(alloc, x, bound.picks.as_slice(), bound.having.as_slice())?;
    match first_repeated(x, bound.joins.as_slice(), measures.as_slice()) {
        Some(name) => Err(QueryFault::Q7(name.copy(alloc)?)),
        None => Ok(()),
    }
}
