// What a caller's query is told over a project.

ghost use Rattle.std.specs.Prelude.{◌≡◌, IfOk};
ghost use Rattle.lk_val.specs.Years.{IsMomentInYears};
ghost use Rattle.lk_semantics.specs.Resolved.{IsInModel, IsResolved};
ghost use Rattle.lookd_why.specs.Lines.{text_of};
ghost use Rattle.lookd_why.specs.Replies.{told_reply};
ghost use Rattle.lookd_why.specs.Tellings.{IsTold};

use crate::lines::print_lines;
use crate::reply::{Reply, Status, refusal};
use lk_ask::refused;
use lk_body::QueryFault;
use lk_query::{bind_body, bound_queries_are_in_their_model, resolved_models_have_few_joins};
use lk_resolve::Loaded;
use lk_route::Ready;
use lk_types::{Bound, Model};
use lk_val::{NoMemory, Text};
use std::alloc::Global;

/// What a caller's body on an explore is told: the lines on the explore's aggregate tables, or the first refusal of its binding (Q2,
/// Q1, Q3, Q8, Q4, Q5, Q6, Q7). `now` counts seconds from 1970-01-01 00:00:00 UTC. (lookd)
pub fn tell(
    alloc: Global,
    loaded: &Loaded,
    user: &Text,
    explore: &Text,
    body: &[u8],
    now: i64,
) -> Result<Reply, NoMemory>
    requires model { IsResolved loaded.now.model }
    requires moment { IsMomentInYears now }
    ensures { IfOk result (IsTold loaded.now user.now explore.now body.now now) }
{
    resolved_models_have_few_joins();
    bound_queries_are_in_their_model();
    match bind_body(
        alloc,
        &loaded.model,
        &loaded.users,
        user,
        explore,
        body,
        now,
    ) {
        Ok(bound) => tell_bound(alloc, &loaded.model, &bound),
        Err(QueryFault::NoMemory) => Err(NoMemory),
        Err(fault) => refusal(alloc, &refused(fault)),
    }
}

fn tell_bound(alloc: Global, m: &Model, b: &Bound) -> Result<Reply, NoMemory>
    requires model { IsResolved m.now }
    requires query { IsInModel m.now b.now }
    ensures { IfOk result (λ reply. reply ≡ told_reply (text_of m.now b.now)) }
{
    let ready = Ready::new(alloc, m)?;
    Ok(Reply {
        body: print_lines(alloc, m, &ready, b)?,
        status: Status::Done,
    })
}
