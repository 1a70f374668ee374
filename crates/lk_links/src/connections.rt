ghost use Rattle.std.specs.Prelude.{◌<◌, ◌≤◌, ℕ, List, length, slice_index_or};
ghost use mathlib.Core.List.{IsPrefix};
ghost use Rattle.lk_front.specs.Chains.{IsChain};
ghost use Rattle.lk_edition.specs.Standings.{Standing};
ghost use Rattle.lk_edition.specs.Versions.{Follows, Opens};
ghost use Rattle.lk_live.specs.Lives.{live};
ghost use Rattle.lk_links.specs.Along.{IsServedAlong};
ghost use Rattle.lk_links.specs.declared.connections.Connection.{Connection};

use lk_front::Shelves;
use lk_io::{Clock, Link};
use lk_listen::Gate;
use lk_live::{Act, Worker, serve_link};
use lk_turns::Ended;
use std::sync::Wait;
use std::thread::{Threads, for_each_mut};

/// A connection, the worker that serves it, and how its session ended, once it was served. (lookd)
#[derive(Drop)]
pub struct Connection<'a, R, A: Act<J>, J: Shelves, C: Clock + Drop, G, L: Link + Drop> {
    pub worker: Worker<'a, R, A, J, C, G>,
    pub link: L,
    pub ended: Ended,
}

/// Serves connections side by side, each by its worker and in a thread of its own where one can be had, until all have ended. There
/// is one list of editions, of which the first is one that a server can open with and each other one is the one before it once more or
/// that of a load or a check on it, such that what went out on each connection are the replies of a session along it, which ended as
/// the connection says then: each belongs to a beginning of the list, none to a shorter one than the reply before it on its
/// connection, and a load or check to one that ends in what it came to. So no reply mixes two snapshots, no connection goes back, and
/// all see one list. It may wait as `serve_link` does. (lookd)
pub fn serve_links<
    R: Threads + Wait + Sync,
    A: Act<J> + Send,
    J: Shelves + Send + Sync,
    C: Clock + Drop,
    G: Gate,
    L: Link + Send + Drop,
>(rt: &R, connections: &mut [Connection<'_, R, A, J, C, G, L>])
    ensures { (all : List Standing) × IsChain Opens Follows all
        × ((place : ℕ) (other : Connection R A J C G L) → place < length connections.old
        → IsServedAlong all
        (live (slice_index_or connections.old place other).worker.desk (A.failed (slice_index_or connections.old place other).worker.act) (C.moments (slice_index_or connections.old place other).worker.clock))
        (L.left (slice_index_or connections.old place other).link) (L.held (slice_index_or connections.old place other).link)
        (live (slice_index_or connections.new place other).worker.desk (A.failed (slice_index_or connections.new place other).worker.act) (C.moments (slice_index_or connections.new place other).worker.clock))
        (L.left (slice_index_or connections.new place other).link) (L.held (slice_index_or connections.new place other).link)
        (slice_index_or connections.new place other).ended) }
{
    serve_each(rt, connections);
    share(connections);
}

// Serves each connection, side by side.
fn serve_each<
    R: Threads + Wait + Sync,
    A: Act<J> + Send,
    J: Shelves + Send + Sync,
    C: Clock + Drop,
    G: Gate,
    L: Link + Send + Drop,
>(rt: &R, connections: &mut [Connection<'_, R, A, J, C, G, L>])
    ensures { (place : ℕ) (other : Connection R A J C G L) → place < length connections.old
        → (all : List Standing) → IsChain Opens Follows all → IsPrefix (slice_index_or connections.new place other).worker.desk.seen all
        → IsServedAlong all
        (live (slice_index_or connections.old place other).worker.desk (A.failed (slice_index_or connections.old place other).worker.act) (C.moments (slice_index_or connections.old place other).worker.clock))
        (L.left (slice_index_or connections.old place other).link) (L.held (slice_index_or connections.old place other).link)
        (live (slice_index_or connections.new place other).worker.desk (A.failed (slice_index_or connections.new place other).worker.act) (C.moments (slice_index_or connections.new place other).worker.clock))
        (L.left (slice_index_or connections.new place other).link) (L.held (slice_index_or connections.new place other).link)
        (slice_index_or connections.new place other).ended }
{
    let count = connections.len();
    if count == 0 {
        return;
    }
    for_each_mut(
        rt,
        connections,
        count,
        &|_, connection: &mut Connection<'_, R, A, J, C, G, L>| serve(connection),
    );
}

// Serves a connection.
fn serve<R: Wait, A: Act<J>, J: Shelves, C: Clock + Drop, G: Gate, L: Link + Drop>(
    connection: &mut Connection<'_, R, A, J, C, G, L>,
)
    ensures { (all : List Standing) → IsChain Opens Follows all → IsPrefix connection.new.worker.desk.seen all
        → IsServedAlong all
        (live connection.old.worker.desk (A.failed connection.old.worker.act) (C.moments connection.old.worker.clock))
        (L.left connection.old.link) (L.held connection.old.link)
        (live connection.new.worker.desk (A.failed connection.new.worker.act) (C.moments connection.new.worker.clock))
        (L.left connection.new.link) (L.held connection.new.link)
        connection.new.ended }
{
    connection.ended = serve_link(&mut connection.worker, &mut connection.link);
}

// What the desks of connections have seen begins one list of editions. It computes nothing that is kept.
fn share<R, A: Act<J>, J: Shelves, C: Clock + Drop, G, L: Link + Drop>(
    connections: &[Connection<'_, R, A, J, C, G, L>],
)
    ensures { (all : List Standing) × IsChain Opens Follows all
        × ((place : ℕ) (other : Connection R A J C G L) → place < length connections.now
        → IsPrefix (slice_index_or connections.now place other).worker.desk.seen all) }
{
    if connections.is_empty() {
        return;
    }
    let longest = longest(connections);
    let desk = &connections[longest].worker.desk;
    desk.len();
    for connection in connections {
        connection.worker.desk.compare(desk);
    }
}

// The place of a connection whose desk has seen no less than any other.
fn longest<R, A: Act<J>, J: Shelves, C: Clock + Drop, G, L: Link + Drop>(
    connections: &[Connection<'_, R, A, J, C, G, L>],
) -> usize
    requires { 0 < length connections.now }
    ensures place { result < length connections.now }
    ensures longest { (place : ℕ) (other : Connection R A J C G L) → place < length connections.now
        → length (slice_index_or connections.now place other).worker.desk.seen ≤ length (slice_index_or connections.now result other).worker.desk.seen }
{
    let mut longest = 0;
    for place in 1..connections.len() {
        let seen = connections[place].worker.desk.len();
        if connections[longest].worker.desk.len() < seen {
            longest = place;
        }
    }
    longest
}
