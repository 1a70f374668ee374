ghost use Rattle.std.specs.Prelude.{◌≡◌, IfOk};
ghost use Rattle.lk_reply.specs.Statuses.{answer_body, answer_reply, refusal_reply, status_of};

use crate::answer::print_answer;
use crate::json_answer::print_answer_json;
use crate::refusal::print_refusal;
use lk_ask::{AskFault, Told};
use lk_types::{Explore, Reply};
use lk_val::{Bytes, NoMemory};
use std::alloc::Global;

/// The reply to a query that is refused: its status, and why in JSON. (RFC 9110; lookd)
pub fn reply_refusal(alloc: Global, fault: &AskFault) -> Result<Reply, NoMemory>
    ensures { IfOk result (λ reply. reply ≡ refusal_reply fault.now) }
{
    Ok(Reply {
        status: status_of(fault),
        csv: false,
        body: print_refusal(alloc, fault)?,
    })
}

fn status_of(fault: &AskFault) -> u16
    ensures { result ≡ status_of fault.now }
{
    match fault {
        AskFault::Q1(_) => 404,
        AskFault::Q2(_) | AskFault::Q5 { .. } => 403,
        AskFault::Q3 | AskFault::Q4(_) | AskFault::Q6 { .. } | AskFault::Q7(_) | AskFault::Q8(_) =>
            400,
        AskFault::Q9 { .. } => 409,
        AskFault::Q10 => 413,
        AskFault::NoMemory => 507,
    }
}

/// The reply to a query that is answered over an explore at a snapshot, in CSV or in JSON.
pub fn reply_answer(
    alloc: Global,
    x: &Explore,
    told: &Told,
    snapshot: u64,
    csv: bool,
) -> Result<Reply, NoMemory>
    ensures { IfOk result (λ reply. reply ≡ answer_reply csv x.now told.now snapshot) }
{
    Ok(Reply {
        status: 200,
        csv,
        body: answer_body(alloc, x, told, snapshot, csv)?,
    })
}

fn answer_body(
    alloc: Global,
    x: &Explore,
    told: &Told,
    snapshot: u64,
    csv: bool,
) -> Result<Bytes, NoMemory>
    ensures { IfOk result (λ body. body ≡ answer_body csv x.now told.now snapshot) }
{
    if csv {
        print_answer(alloc, x, told, snapshot)
    } else {
        print_answer_json(alloc, x, told, snapshot)
    }
}
