ghost use Rattle.std.specs.Prelude.{◌≡◌, ◌⊎◌, ◌≤◌, List, IfSome, IsSome, Ok, Some, true};
ghost use Rattle.lk_io.specs.Causes.{Rose};
ghost use Rattle.lk_state.specs.States.{State};
ghost use Rattle.lk_edition.specs.Histories.{Stands};
ghost use Rattle.lk_edition.specs.Offices.{standing_in};
ghost use Rattle.lk_http.specs.Ways.{Comes};
ghost use Rattle.lk_http.specs.declared.request.Got.TheVariants.{Req};
ghost use Rattle.lk_turns.specs.Runs.{IsSession};
ghost use Rattle.lk_turns.specs.Steps.{IsDone, IsStep, NeverFall};
ghost use Rattle.lk_turns.specs.declared.ended.Ended.{Ended};
ghost use Rattle.lk_session.specs.Recorded.{IsRecorded};
ghost use Rattle.lk_session.specs.Servers.{ItemDoes, by_edition, keeper_in, server};

use crate::serving::serve;
use lk_answer::answers_are_of_one_snapshot;
use lk_edition::{Office, checks_keep_the_history, loads_keep_the_history};
use lk_http::{Conn, Got, HttpFault, Request, read_request};
use lk_io::{Clock, Link};
use lk_ledger::Keeper;
use lk_turns::{Ended, forget, refuse, send};
use std::alloc::Global;

// The most replies of a session.
const REPLY_LIMIT: u32 = 100_000;

/// Answers the requests of a connection in order, one reply each, until its input ends, a request asks to close, a head can't be
/// read, 100,000 replies are written, or the link fails. Each whole request with a route takes the clock's next moment. A query is
/// answered over one snapshot of the server's history, and its reply names that. (lookd)
pub fn session<K: Keeper, L: Link, C: Clock>(
    alloc: Global,
    office: &mut Office<K>,
    link: &mut L,
    clock: &mut C,
) -> Ended
    // Over bytes that the link tells, what went out are the replies of a run from the office as it was to the office as it is.
    ensures answers { IfSome (L.left link.old) (λ bytes. IsSession (ItemDoes by_edition)
        (server (standing_in office.old) (K.held (keeper_in office.old)) (K.faults (keeper_in office.old)) (C.moments clock.old)) bytes
        (L.held link.old) (L.held link.new)
        (server (standing_in office.new) (K.held (keeper_in office.new)) (K.faults (keeper_in office.new)) (C.moments clock.new)) (L.left link.new) result) }
    // Where its edition is that of a history, they are those of a run over that history, which goes on with the office.
    ensures run { (past : List State) → Stands (standing_in office.old) past → IfSome (L.left link.old) (λ bytes. IsRecorded
        (server (standing_in office.old) (K.held (keeper_in office.old)) (K.faults (keeper_in office.old)) (C.moments clock.old)) past bytes
        (L.held link.old) (L.held link.new)
        (server (standing_in office.new) (K.held (keeper_in office.new)) (K.faults (keeper_in office.new)) (C.moments clock.new)) (L.left link.new) result) }
    ensures read { result ≡ Ended.ReadFault → Rose (L.Source.faults link.old) (L.Source.faults link.new) }
    ensures write { result ≡ Ended.WriteFault → Rose (L.Sink.faults link.old) (L.Sink.faults link.new) }
    // No count of faults falls, and the link comes to where it is by pulls and puts alone.
    ensures counts { NeverFall (K.faults (keeper_in office.old)) (K.faults (keeper_in office.new))
        (L.Source.faults link.old) (L.Source.faults link.new) (L.Sink.faults link.old) (L.Sink.faults link.new) }
    ensures ways { Comes (λ a b. L.Source.keeps_at_pull a b ⊎ L.Sink.keeps_at_put a b) link.old link.new }
{
    loads_keep_the_history();
    checks_keep_the_history();
    answers_are_of_one_snapshot();
    converse(alloc, office, link, clock)
}

// Answers the requests of a connection by what the office's edition has.
fn converse<K: Keeper, L: Link, C: Clock>(
    alloc: Global,
    office: &mut Office<K>,
    link: &mut L,
    clock: &mut C,
) -> Ended
    ensures run { IfSome (L.left link.old) (λ bytes. IsSession (ItemDoes by_edition)
        (server (standing_in office.old) (K.held (keeper_in office.old)) (K.faults (keeper_in office.old)) (C.moments clock.old)) bytes
        (L.held link.old) (L.held link.new)
        (server (standing_in office.new) (K.held (keeper_in office.new)) (K.faults (keeper_in office.new)) (C.moments clock.new)) (L.left link.new) result) }
    ensures read { result ≡ Ended.ReadFault → Rose (L.Source.faults link.old) (L.Source.faults link.new) }
    ensures write { result ≡ Ended.WriteFault → Rose (L.Sink.faults link.old) (L.Sink.faults link.new) }
    ensures counts { NeverFall (K.faults (keeper_in office.old)) (K.faults (keeper_in office.new))
        (L.Source.faults link.old) (L.Source.faults link.new) (L.Sink.faults link.old) (L.Sink.faults link.new) }
    ensures ways { Comes (λ a b. L.Source.keeps_at_pull a b ⊎ L.Sink.keeps_at_put a b) link.old link.new }
{
    let Ok(mut conn) = Conn::new(alloc) else {
        return Ended::NoMemory;
    };
    for before in 0..REPLY_LIMIT {
        let last = before == REPLY_LIMIT - 1;
        match answer_next(alloc, office, link, clock, &mut conn, last) {
            Some(ended) => return ended,
            None => {}
        }
    }
    // The last reply ends the session.
    unreachable!()
}

// Answers the next item, and tells how the session ended, if it did.
fn answer_next<K: Keeper, L: Link, C: Clock>(
    alloc: Global,
    office: &mut Office<K>,
    link: &mut L,
    clock: &mut C,
    conn: &mut Conn,
    last: bool,
) -> Option<Ended>
    ensures step { IfSome (L.left link.old) (λ bytes. IsStep (ItemDoes by_edition)
        (server (standing_in office.old) (K.held (keeper_in office.old)) (K.faults (keeper_in office.old)) (C.moments clock.old)) bytes last
        (L.held link.old) (L.held link.new)
        (server (standing_in office.new) (K.held (keeper_in office.new)) (K.faults (keeper_in office.new)) (C.moments clock.new)) (L.left link.new) result) }
    ensures ends { last ≡ true → IsSome result }
    ensures read { result ≡ Some Ended.ReadFault → Rose (L.Source.faults link.old) (L.Source.faults link.new) }
    ensures reads { L.Source.faults link.old ≤ L.Source.faults link.new }
    ensures write { result ≡ Some Ended.WriteFault → Rose (L.Sink.faults link.old) (L.Sink.faults link.new) }
    ensures writes { L.Sink.faults link.old ≤ L.Sink.faults link.new }
    ensures counts { K.faults (keeper_in office.old) ≤ K.faults (keeper_in office.new) }
    ensures ways { Comes (λ a b. L.Source.keeps_at_pull a b ⊎ L.Sink.keeps_at_put a b) link.old link.new }
{
    match read_request(alloc, link, conn) {
        Ok(Got::End) => Some(Ended::Clean),
        Ok(Got::Req(request)) => answer_request(alloc, office, link, clock, request, last),
        Err(HttpFault::Truncated) => Some(Ended::Truncated),
        Err(HttpFault::ReadFault) => Some(Ended::ReadFault),
        Err(HttpFault::NoMemory) => forget(link, conn.asks_close(), last),
        Err(fault) => refuse(alloc, link, fault, last),
    }
}

// Answers a request.
fn answer_request<K: Keeper, L: Link, C: Clock>(
    alloc: Global,
    office: &mut Office<K>,
    link: &mut L,
    clock: &mut C,
    request: Request,
    last: bool,
) -> Option<Ended>
    ensures done { IsDone (ItemDoes by_edition)
        (server (standing_in office.old) (K.held (keeper_in office.old)) (K.faults (keeper_in office.old)) (C.moments clock.old)) (Ok (Req request)) last
        (L.held link.old) (L.held link.new)
        (server (standing_in office.new) (K.held (keeper_in office.new)) (K.faults (keeper_in office.new)) (C.moments clock.new)) result }
    ensures left { L.left link.new ≡ L.left link.old }
    ensures ends { last ≡ true → IsSome result }
    ensures reads { L.Source.faults link.new ≡ L.Source.faults link.old }
    ensures write { result ≡ Some Ended.WriteFault → Rose (L.Sink.faults link.old) (L.Sink.faults link.new) }
    ensures writes { L.Sink.faults link.old ≤ L.Sink.faults link.new }
    ensures counts { K.faults (keeper_in office.old) ≤ K.faults (keeper_in office.new) }
    ensures puts { Comes L.Sink.keeps_at_put link.old link.new }
    ensures never { result ≡ Some Ended.ReadFault → ⊥ }
{
    let close = request.close;
    let now = clock.now();
    let reply = serve(alloc, office, request, now);
    send(link, reply, close, last, Ended::Clean)
}
