// What a run writes, and how it ends.

ghost use Rattle.std.specs.Prelude.{◌≡◌, IfOk};
ghost use Rattle.lookd_why.specs.Replies.{code_of, fault_reply, line, long_reply, refused_reply, usage_reply};

use lk_ask::AskFault;
use lk_reply::print_refusal;
use lk_val::{Bytes, FaultLine, NoMemory};
use std::alloc::Global;

/// How a run ends that nothing from outside has stopped.
#[derive(Clone, Copy, PartialEq, Eq)]
pub enum Status {
    /// The lines on the aggregate tables are told.
    Done,
    /// The project has a fault.
    Faulty,
    /// The words have no known form.
    Usage,
    /// The query is refused.
    Refused,
}

impl Status {
    /// The status of the process.
    pub fn code(self) -> u8
        ensures { result ≡ code_of self }
    {
        match self {
            Status::Done => 0,
            Status::Faulty => 1,
            Status::Usage => 2,
            Status::Refused => 8,
        }
    }
}

/// What a run writes, and how it ends.
#[derive(Drop)]
pub struct Reply {
    pub body: Bytes,
    pub status: Status,
}

/// The line on how the program is called.
pub fn usage(alloc: Global) -> Result<Reply, NoMemory>
    ensures { IfOk result (λ reply. reply ≡ usage_reply) }
{
    line_reply(alloc, b"usage: lookd_why DIR USER EXPLORE", Status::Usage)
}

/// The line of a project's first fault.
pub fn fault_found(alloc: Global, fault: &FaultLine) -> Result<Reply, NoMemory>
    ensures { IfOk result (λ reply. reply ≡ fault_reply fault.now) }
{
    let line = fault.print(alloc)?;
    Ok(Reply {
        body: Bytes::from_slice(alloc, line.as_bytes())?,
        status: Status::Faulty,
    })
}

/// The refusal of an input that is too long for a query (H3).
pub fn long(alloc: Global) -> Result<Reply, NoMemory>
    ensures { IfOk result (λ reply. reply ≡ long_reply) }
{
    line_reply(alloc, b"{\"error\":\"H3\"}", Status::Refused)
}

/// The refusal of a query.
pub fn refusal(alloc: Global, fault: &AskFault) -> Result<Reply, NoMemory>
    ensures { IfOk result (λ reply. reply ≡ refused_reply fault.now) }
{
    let body = print_refusal(alloc, fault)?;
    line_reply(alloc, body.as_slice(), Status::Refused)
}

fn line_reply(alloc: Global, text: &[u8], status: Status) -> Result<Reply, NoMemory>
    ensures { IfOk result (λ reply. reply ≡ record { body = line text.now; status = status }) }
{
    let mut body = Bytes::from_slice(alloc, text)?;
    body.append(b"\n")?;
    Ok(Reply { body, status })
}
