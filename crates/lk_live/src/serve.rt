ghost use Rattle.std.specs.Prelude.{◌≡◌, ◌⊎◌, List, IfSome};
ghost use mathlib.Core.List.{IsPrefix};
ghost use Rattle.lk_io.specs.Causes.{Rose};
ghost use Rattle.lk_front.specs.Chains.{IsChain};
ghost use Rattle.lk_edition.specs.Standings.{Standing};
ghost use Rattle.lk_edition.specs.Versions.{Follows, Opens};
ghost use Rattle.lk_http.specs.Ways.{Comes};
ghost use Rattle.lk_turns.specs.Doings.{ItemDoes};
ghost use Rattle.lk_turns.specs.Runs.{IsSession};
ghost use Rattle.lk_turns.specs.Steps.{NeverFall};
ghost use Rattle.lk_turns.specs.declared.ended.Ended.{Ended};
ghost use Rattle.lk_live.specs.Lives.{Forgets, Serves, live};
ghost use Rattle.lk_live.specs.Places.{DoesAt, place_of};

use crate::acting::Act;
use crate::live::Live;
use crate::worker::Worker;
use lk_answer::answers_are_of_one_snapshot;
use lk_edition::editions_in_a_list_stand;
use lk_front::Shelves;
use lk_io::{Clock, Link};
use lk_listen::Gate;
use lk_turns::{Ended, serve_turns};
use std::sync::Wait;

/// Answers the requests of a connection in order, one reply each, until its input ends, a request asks to close, a head can't be read,
/// 100,000 replies are written, or the link fails. Each whole request with a route takes the clock's next moment. A query is answered
/// from one look of the desk, between a `begin` and an `end` of the gate; loads and checks are handed on. So each reply belongs to a
/// beginning of the list of all editions that readers were shown, none to a shorter one than the reply before it, and a load or check
/// to one that ends in what it came to. It may wait for the writer and for readers where a load or a check does. (lookd)
pub fn serve_link<R: Wait, A: Act<J>, L: Link, C: Clock + Drop, G: Gate, J: Shelves>(
    worker: &mut Worker<'_, R, A, J, C, G>,
    link: &mut L,
) -> Ended
    // Over bytes that the link tells, what went out are the replies of a run by what the desk has seen.
    ensures answers { IfSome (L.left link.old) (λ bytes. IsSession (ItemDoes Serves Forgets)
        (live worker.old.desk (A.failed worker.old.act) (C.moments worker.old.clock)) bytes (L.held link.old) (L.held link.new)
        (live worker.new.desk (A.failed worker.new.act) (C.moments worker.new.clock)) (L.left link.new) result) }
    // Along each list of editions that goes on from what the desk has seen, they are those of a run along that list.
    ensures along { (all : List Standing) → IsChain Opens Follows all → IsPrefix worker.new.desk.seen all
        → IfSome (L.left link.old) (λ bytes. IsSession (DoesAt all)
        (place_of (live worker.old.desk (A.failed worker.old.act) (C.moments worker.old.clock))) bytes (L.held link.old) (L.held link.new)
        (place_of (live worker.new.desk (A.failed worker.new.act) (C.moments worker.new.clock))) (L.left link.new) result) }
    ensures later { IsPrefix worker.old.desk.seen worker.new.desk.seen }
    ensures read { result ≡ Ended.ReadFault → Rose (L.Source.faults link.old) (L.Source.faults link.new) }
    ensures write { result ≡ Ended.WriteFault → Rose (L.Sink.faults link.old) (L.Sink.faults link.new) }
    ensures counts { NeverFall (A.failed worker.old.act) (A.failed worker.new.act)
        (L.Source.faults link.old) (L.Source.faults link.new) (L.Sink.faults link.old) (L.Sink.faults link.new) }
    ensures ways { Comes (λ a b. L.Source.keeps_at_pull a b ⊎ L.Sink.keeps_at_put a b) link.old link.new }
{
    editions_in_a_list_stand();
    answers_are_of_one_snapshot();
    let alloc = worker.alloc;
    serve_turns::<Live, Worker<'_, R, A, J, C, G>, L>(alloc, worker, link)
}
