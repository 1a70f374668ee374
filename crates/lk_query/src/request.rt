// A query over an explore with its names as numbers.

ghost use Rattle.lk_val.specs.Memory.{IsUnlessMemory};
ghost use Rattle.lk_body.specs.Faults.{is_no_memory};
ghost use Rattle.lk_query.specs.Bindings.{request_of};

use crate::callers::access_texts;
use crate::names::{limit_of, picks_of, sorts_of};
use crate::texts::{FilterText, filters_of};
use lk_body::QueryFault;
use lk_schema::Users;
use lk_types::{Explore, Pick, Query, Sort};
use lk_val::{Items, Text};
use std::alloc::Global;

/// A caller's query over an explore before any filter is read: its own filters by the bytes of their names, and the
/// access filters as declared.
#[derive(Drop)]
pub struct Request {
    pub limit: u32,
    pub picks: Items<Pick>,
    pub filters: Items<FilterText>,
    pub sorts: Items<Sort>,
    pub access: Items<FilterText>,
}

/// The query over the explore, or the first of its refusals: Q8; Q4 of its fields, then its filters, then its sorts; Q5.
pub(crate) fn request_of(
    alloc: Global,
    x: &Explore,
    users: &Users,
    user: &Text,
    q: &Query,
) -> Result<Request, QueryFault>
    ensures { IsUnlessMemory is_no_memory result (request_of x.now users.now user.now q.now) }
{
    Ok(Request {
        limit: limit_of(q.limit)?,
        picks: picks_of(alloc, x, q.fields.as_slice())?,
        filters: filters_of(alloc, x, q.filters.as_slice())?,
        sorts: sorts_of(alloc, q.fields.as_slice(), q.sorts.as_slice())?,
        access: access_texts(alloc, x, users, user)?,
    })
}
