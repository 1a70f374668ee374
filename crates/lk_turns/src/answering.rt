ghost use Rattle.std.specs.Prelude.{◌≡◌, ◌⊎◌, ◌≤◌, ◌||◌, if◌then◌else◌, IfOk, IfSome, IsSome, Err, None, Ok, OnErr, OnOk, Some, true};
ghost use Rattle.std.specs.Io.KnownBytes.{Appends};
ghost use Rattle.lk_io.specs.Causes.{HasCause, Rose};
ghost use Rattle.lk_io.specs.Streams.{AppendsFront};
ghost use Rattle.lk_http.specs.Items.{ends};
ghost use Rattle.lk_http.specs.Replies.{is_status, memory_reply, printed_reply};
ghost use Rattle.lk_http.specs.Ways.{Comes};
ghost use Rattle.lk_http.specs.declared.request.Got.TheVariants.{Req};
ghost use Rattle.lk_turns.specs.Doings.{ItemDoes, http_reply};
ghost use Rattle.lk_turns.specs.Runs.{IsSession, closed_by, how_ended};
ghost use Rattle.lk_turns.specs.Steps.{IsDone, IsRefused, IsSent, IsStep, NeverFall, reply_or_memory};
ghost use Rattle.lk_turns.specs.declared.ended.Ended.{Ended};

use crate::answerer::Answerer;
use crate::ended::Ended;
use crate::refusing::refusal_of;
use lk_http::{Conn, Got, HttpFault, Request, read_request, write_memory, write_reply};
use lk_io::{Failed, Link};
use lk_types::Reply;
use lk_val::{Bytes, NoMemory};
use std::alloc::Global;

// The most replies of a session.
const REPLY_LIMIT: u32 = 100_000;

/// Answers the requests of a connection in order, one reply each, until its input ends, a request asks to close, a head can't be
/// read, 100,000 replies are written, or the link fails. (lookd)
pub fn serve_turns<V, A: Answerer<V>, L: Link>(
    alloc: Global,
    answerer: &mut A,
    link: &mut L,
) -> Ended
    // Over bytes that the link tells, what went out are the replies of a run from what was known of the answerer to what is.
    ensures answers { IfSome (L.left link.old) (λ bytes. IsSession (ItemDoes A.serves A.forgets)
        (A.state answerer.old) bytes (L.held link.old) (L.held link.new) (A.state answerer.new) (L.left link.new) result) }
    ensures read { result ≡ Ended.ReadFault → Rose (L.Source.faults link.old) (L.Source.faults link.new) }
    ensures write { result ≡ Ended.WriteFault → Rose (L.Sink.faults link.old) (L.Sink.faults link.new) }
    // No count of faults falls, the link comes to where it is by pulls and puts alone, and the answerer by answers.
    ensures counts { NeverFall (A.faults answerer.old) (A.faults answerer.new)
        (L.Source.faults link.old) (L.Source.faults link.new) (L.Sink.faults link.old) (L.Sink.faults link.new) }
    ensures ways { Comes (λ a b. L.Source.keeps_at_pull a b ⊎ L.Sink.keeps_at_put a b) link.old link.new }
    ensures keeps { Comes A.keeps answerer.old answerer.new }
{
    let Ok(mut conn) = Conn::new(alloc) else {
        return Ended::NoMemory;
    };
    for before in 0..REPLY_LIMIT {
        let last = before == REPLY_LIMIT - 1;
        match answer_next::<V, A, L>(alloc, answerer, link, &mut conn, last) {
            Some(ended) => return ended,
            None => {}
        }
    }
    // The last reply ends the session.
    unreachable!()
}

// Answers the next item, and tells how the session ended, if it did.
fn answer_next<V, A: Answerer<V>, L: Link>(
    alloc: Global,
    answerer: &mut A,
    link: &mut L,
    conn: &mut Conn,
    last: bool,
) -> Option<Ended>
    ensures step { IfSome (L.left link.old) (λ bytes. IsStep (ItemDoes A.serves A.forgets)
        (A.state answerer.old) bytes last (L.held link.old) (L.held link.new) (A.state answerer.new) (L.left link.new) result) }
    ensures ends { last ≡ true → IsSome result }
    ensures read { result ≡ Some Ended.ReadFault → Rose (L.Source.faults link.old) (L.Source.faults link.new) }
    ensures reads { L.Source.faults link.old ≤ L.Source.faults link.new }
    ensures write { result ≡ Some Ended.WriteFault → Rose (L.Sink.faults link.old) (L.Sink.faults link.new) }
    ensures writes { L.Sink.faults link.old ≤ L.Sink.faults link.new }
    ensures counts { A.faults answerer.old ≤ A.faults answerer.new }
    ensures ways { Comes (λ a b. L.Source.keeps_at_pull a b ⊎ L.Sink.keeps_at_put a b) link.old link.new }
    ensures keeps { Comes A.keeps answerer.old answerer.new }
{
    match read_request(alloc, link, conn) {
        Ok(Got::End) => Some(Ended::Clean),
        Ok(Got::Req(request)) => answer_request::<V, A, L>(answerer, link, request, last),
        Err(HttpFault::Truncated) => Some(Ended::Truncated),
        Err(HttpFault::ReadFault) => Some(Ended::ReadFault),
        Err(HttpFault::NoMemory) => forget(link, conn.asks_close(), last),
        Err(fault) => refuse(alloc, link, fault, last),
    }
}

// Answers a request.
fn answer_request<V, A: Answerer<V>, L: Link>(
    answerer: &mut A,
    link: &mut L,
    request: Request,
    last: bool,
) -> Option<Ended>
    ensures done { IsDone (ItemDoes A.serves A.forgets)
        (A.state answerer.old) (Ok (Req request)) last (L.held link.old) (L.held link.new) (A.state answerer.new) result }
    ensures left { L.left link.new ≡ L.left link.old }
    ensures ends { last ≡ true → IsSome result }
    ensures reads { L.Source.faults link.new ≡ L.Source.faults link.old }
    ensures write { result ≡ Some Ended.WriteFault → Rose (L.Sink.faults link.old) (L.Sink.faults link.new) }
    ensures writes { L.Sink.faults link.old ≤ L.Sink.faults link.new }
    ensures counts { A.faults answerer.old ≤ A.faults answerer.new }
    ensures puts { Comes L.Sink.keeps_at_put link.old link.new }
    ensures keeps { A.keeps answerer.old answerer.new }
    ensures never { result ≡ Some Ended.ReadFault → ⊥ }
{
    let close = request.close;
    let reply = answerer.answer(request);
    send(link, reply, close, last, Ended::Clean)
}

/// Answers a request that was read and dropped for want of memory, and tells how the session ended, if it did. It takes no memory.
/// (lookd)
pub fn forget<L: Link>(link: &mut L, close: bool, last: bool) -> Option<Ended>
    ensures sent { IsSent (L.held link.old) (L.held link.new) memory_reply (close || last) (how_ended last Ended.Clean) result }
    ensures left { L.left link.new ≡ L.left link.old }
    ensures ends { last ≡ true → IsSome result }
    ensures reads { L.Source.faults link.new ≡ L.Source.faults link.old }
    ensures write { result ≡ Some Ended.WriteFault → Rose (L.Sink.faults link.old) (L.Sink.faults link.new) }
    ensures writes { L.Sink.faults link.old ≤ L.Sink.faults link.new }
    ensures puts { Comes L.Sink.keeps_at_put link.old link.new }
    ensures never { result ≡ Some Ended.ReadFault → ⊥ }
{
    send(link, Err(NoMemory), close, last, Ended::Clean)
}

/// Answers a request that is refused as it is, and tells how the session ended, if it did. (lookd)
pub fn refuse<L: Link>(alloc: Global, link: &mut L, fault: HttpFault, last: bool) -> Option<Ended>
    requires { IsSome (http_reply fault) }
    ensures sent { IsRefused fault last (L.held link.old) (L.held link.new) result }
    ensures some { IsSome (http_reply fault) }
    ensures left { L.left link.new ≡ L.left link.old }
    ensures ends { last ≡ true → IsSome result }
    ensures reads { L.Source.faults link.new ≡ L.Source.faults link.old }
    ensures write { result ≡ Some Ended.WriteFault → Rose (L.Sink.faults link.old) (L.Sink.faults link.new) }
    ensures writes { L.Sink.faults link.old ≤ L.Sink.faults link.new }
    ensures puts { Comes L.Sink.keeps_at_put link.old link.new }
    ensures never { result ≡ Some Ended.ReadFault → ⊥ }
{
    let reply = reply_fault(alloc, fault);
    send(link, reply, closes(fault), last, closed_by(fault))
}

// The reply to a request that is refused as it is.
fn reply_fault(alloc: Global, fault: HttpFault) -> Result<Reply, NoMemory>
    requires { IsSome (http_reply fault) }
    ensures { IfOk result (λ reply. http_reply fault ≡ Some reply) }
{
    let Some((status, body)) = refusal_of(fault) else {
        unreachable!()
    };
    Ok(Reply {
        status,
        csv: false,
        body: Bytes::from_slice(alloc, body)?,
    })
}

// Whether the connection closes after the fault.
fn closes(fault: HttpFault) -> bool
    ensures { result ≡ ends (Err fault) }
{
    match fault {
        HttpFault::H4(close) | HttpFault::H5(close) => close,
        _ => true,
    }
}

// How a session ends that the fault closes.
fn closed_by(fault: HttpFault) -> Ended
    ensures { result ≡ closed_by (Err fault) }
{
    match fault {
        HttpFault::H1 | HttpFault::H2 | HttpFault::H3(_) | HttpFault::H6 => Ended::BadHead,
        _ => Ended::Clean,
    }
}

/// Sends a reply, or that memory was refused, and tells how the session ended, if it did: after the last reply, or after one that
/// closes the connection, in which case it ended so. (lookd)
pub fn send<L: Link>(
    link: &mut L,
    reply: Result<Reply, NoMemory>,
    close: bool,
    last: bool,
    ended: Ended,
) -> Option<Ended>
    requires status { IfOk reply (λ reply. is_status reply.status ≡ true) }
    requires never { ended ≡ Ended.ReadFault → ⊥ }
    requires unwritten { ended ≡ Ended.WriteFault → ⊥ }
    ensures sent { IsSent (L.held link.old) (L.held link.new) (reply_or_memory reply) (close || last) (how_ended last ended) result }
    ensures left { L.left link.new ≡ L.left link.old }
    ensures ends { last ≡ true → IsSome result }
    ensures reads { L.Source.faults link.new ≡ L.Source.faults link.old }
    ensures write { result ≡ Some Ended.WriteFault → Rose (L.Sink.faults link.old) (L.Sink.faults link.new) }
    ensures writes { L.Sink.faults link.old ≤ L.Sink.faults link.new }
    ensures puts { Comes L.Sink.keeps_at_put link.old link.new }
    ensures never { result ≡ Some Ended.ReadFault → ⊥ }
{
    match write(link, &reply, close || last) {
        Ok(()) => ended_after(close, last, ended),
        Err(_) => Some(Ended::WriteFault),
    }
}

// Writes a reply, or that memory was refused.
fn write<L: Link>(link: &mut L, reply: &Result<Reply, NoMemory>, close: bool) -> Result<(), Failed>
    requires status { IfOk reply.now (λ reply. is_status reply.status ≡ true) }
    ensures ok { OnOk result (Appends (L.held link.old) (L.held link.new) (printed_reply (reply_or_memory reply.now) close)) }
    ensures err { OnErr result (AppendsFront (L.held link.old) (L.held link.new) (printed_reply (reply_or_memory reply.now) close)) }
    ensures cause { HasCause (L.Sink.faults link.old) (L.Sink.faults link.new) result }
    ensures left { L.left link.new ≡ L.left link.old }
    ensures reads { L.Source.faults link.new ≡ L.Source.faults link.old }
    ensures puts { Comes L.Sink.keeps_at_put link.old link.new }
{
    match reply {
        Ok(reply) => write_reply(link, reply, close),
        Err(NoMemory) => write_memory(link, close),
    }
}

// How a session ended whose reply went out, if it did.
fn ended_after(close: bool, last: bool, ended: Ended) -> Option<Ended>
    ensures { result ≡ (if close || last then Some (how_ended last ended) else None) }
{
    if last {
        Some(Ended::Spent)
    } else if close {
        Some(ended)
    } else {
        None
    }
}
