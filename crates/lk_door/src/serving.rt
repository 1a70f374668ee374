ghost use Rattle.std.specs.Prelude.{◌≡◌, ◌<◌, ◌≤◌, ◌+◌, ◌*◌, ◌-◌, ◌^◌, min, true, length, vec_len, IfOk};
ghost use Rattle.lk_door.specs.declared.serving.Served.TheVariants as served;

use crate::doorway::{Doorway, Since};
use lk_bureau::Bureau;
use lk_edition::Edition;
use lk_front::Shelves;
use lk_io::Clock;
use lk_ledger::Keeper;
use lk_listen::{Door, Gate};
use lk_live::{Act, Teller, Worker, serve_link};
use lk_shelf::Desk;
use lk_val::NoMemory;
use std::alloc::Global;
use std::sync::{Mutex, Wait};
use std::thread::{Threads, for_each_mut};

// How many faults of the door end a worker.
const FAULT_LIMIT: u64 = 1_000;

/// How the serving of a door's connections ended.
#[derive(Clone, Copy, Debug, PartialEq, Eq)]
pub enum Served {
    /// A call of the door answered that there are no more connections.
    Ended,
    /// Every worker met 1,000 calls of the door that failed.
    Broken,
    /// The workers could not be made, and none began.
    NoMemory,
}

/// How the serving ended, and the door, handed back.
#[derive(Drop)]
pub struct Shut<D: Door + Drop> {
    pub served: Served,
    pub door: D,
}

/// Serves the connections of a door by one worker for each desk, side by side, each in a thread of its own where one can be had. A
/// worker takes the lock of the door for its next connection alone. It ends where there are no more, or at the 1,000th call that
/// failed for it. Each has a twin of the clock, made before any begins. It returns once all have ended, and may wait as long as the
/// door does. (lookd)
pub fn serve_door<
    R: Threads + Wait + Sync,
    K: Keeper + Drop + Send,
    J: Shelves + Send + Sync,
    S: Wait + Drop + Send,
    D: Door + Drop,
    B: Since + Send + Sync,
    C: Clock + Drop,
    G: Gate,
>(
    rt: &R,
    alloc: Global,
    desks: Vec<Desk<Edition, J>>,
    bureau: &Mutex<Bureau<K, J, S>>,
    way: Doorway<D, B>,
    clock: &C,
    gate: &G,
) -> Shut<D>
    requires { 0 < vec_len desks }
    ensures ended { result.served ≡ served.Ended → D.ended result.door ≡ true }
    ensures broken { result.served ≡ served.Broken
        → min (B.base + 1000 * vec_len desks) (2 ^ 64 - 1) ≤ D.faults result.door }
{
    let count = desks.len();
    let Ok(mut workers) = make_workers(rt, alloc, desks, bureau, clock, gate) else {
        return Shut {
            served: Served::NoMemory,
            door: way.into_door(),
        };
    };
    let way = serve_all(rt, workers.as_mut_slice(), way);
    let served = if way.failed / FAULT_LIMIT >= count as u64 {
        Served::Broken
    } else if way.ended {
        Served::Ended
    } else {
        Served::NoMemory
    };
    Shut {
        served,
        door: way.into_door(),
    }
}

// A worker of the program.
type Clerk<'a, R, K, J, S, C, G> = Worker<'a, R, Teller<'a, K, J, S>, J, C, G>;

// A worker for each desk.
fn make_workers<'a, R, K: Keeper + Drop, J: Shelves, S: Wait + Drop, C: Clock + Drop, G: Gate>(
    rt: &'a R,
    alloc: Global,
    desks: Vec<Desk<Edition, J>>,
    bureau: &'a Mutex<Bureau<K, J, S>>,
    clock: &C,
    gate: &'a G,
) -> Result<Vec<Clerk<'a, R, K, J, S, C, G>>, NoMemory>
    ensures { IfOk result (λ workers. vec_len workers ≡ vec_len desks) }
{
    let mut workers = Vec::new(alloc);
    for desk in desks {
        workers.push(Worker {
            rt,
            alloc,
            desk,
            act: Teller::new(alloc, bureau),
            clock: clock.twin(alloc)?,
            gate,
        })?;
    }
    Ok(workers)
}

// Has all workers serve, side by side, until each has ended.
fn serve_all<
    R: Threads + Wait + Sync,
    A: Act<J> + Send,
    J: Shelves + Send + Sync,
    D: Door + Drop,
    B: Since + Send + Sync,
    C: Clock + Drop,
    G: Gate,
>(rt: &R, workers: &mut [Worker<'_, R, A, J, C, G>], way: Doorway<D, B>) -> Doorway<D, B> {
    let count = workers.len();
    let way = Mutex::new(way);
    if count > 0 {
        for_each_mut(
            rt,
            workers,
            count,
            &|_, worker: &mut Worker<'_, R, A, J, C, G>| serve(worker, &way),
        );
    }
    way.into_inner()
}

// Serves one connection after another, until there are no more or the door has failed for too often.
fn serve<R: Wait, A: Act<J>, J: Shelves, D: Door + Drop, B: Since, C: Clock + Drop, G: Gate>(
    worker: &mut Worker<'_, R, A, J, C, G>,
    way: &Mutex<Doorway<D, B>>,
) {
    let rt = worker.rt;
    let mut failed = 0;
    for _ in rt.forever() {
        let next = way.lock(rt).next();
        match next {
            Ok(Some(mut link)) => {
                let _ = serve_link(worker, &mut link);
            }
            Ok(None) => return,
            Err(_) => {
                failed += 1;
                if failed >= FAULT_LIMIT {
                    return;
                }
            }
        }
    }
}
