ghost use Rattle.std.specs.Prelude.{◌≡◌, ◌≤◌, ◌∷◌, [], IfOk, None, vec_len};
ghost use Rattle.lk_io.specs.Causes.{Rose};
ghost use Rattle.lk_edition.specs.Histories.{Stands};
ghost use Rattle.lk_edition.specs.Offices.{Begins, standing_in};
ghost use Rattle.lk_serve.specs.Listening.{HasListened, HasShut, LeavesDoor, served_code};
ghost use Rattle.lk_serve.specs.Runs.{LeavesInput};
ghost use Rattle.lk_serve.specs.Scripts.{outside};
ghost use Rattle.lk_door.specs.declared.serving.Served.{Served};

use crate::opening::{DataFiles, Opened, Unserved, open_office};
use crate::script::tell;
use lk_bureau::Bureau;
use lk_door::{Doorway, Served, Shut, Since, serve_door};
use lk_edition::{Edition, Office};
use lk_front::{Blank, Shelves};
use lk_io::{Clock, Files, Sink};
use lk_ledger::Keeper;
use lk_listen::{Door, Open};
use lk_shelf::{Desk, Publisher, shelf};
use lk_val::NoMemory;
use std::alloc::Global;
use std::marker::Brand;
use std::sync::{Mutex, Wait};
use std::thread::Threads;

/// How a run ended: the status of the process, and the store and the door, handed back.
#[derive(Drop)]
pub struct Ran<K, D> {
    pub status: u8,
    pub keeper: K,
    pub door: D,
}

/// Opens the server over the folder's project and the store at the clock's next moment, without the project's data files, and has so
/// many workers serve the connections of the door until each has ended. (lookd)
pub(crate) fn listen<
    R: Threads + Wait + Sync,
    F: Files,
    K: Keeper + Drop + Send,
    O: Sink,
    D: Door + Drop,
    C: Clock + Drop,
>(
    rt: &R,
    alloc: Global,
    workers: usize,
    files: &mut F,
    keeper: K,
    out: &mut O,
    door: D,
    clock: &mut C,
) -> Ran<K, D>
    requires { (1 ≤ workers) × (workers ≤ 16) }
    ensures listened { HasListened (F.told files.old) (Begins (K.held keeper) (K.handed keeper))
        (outside (K.held keeper) (K.faults keeper) None (O.held out.old) (C.moments clock.old))
        (outside (K.held result.keeper) (K.faults result.keeper) None (O.held out.new) (C.moments clock.new))
        result.status (HasShut workers (D.faults door) (D.faults result.door) (D.ended result.door) result.status) }
    ensures door { LeavesDoor result.status → result.door ≡ door }
    ensures write { result.status ≡ 4 → Rose (O.faults out.old) (O.faults out.new) }
    ensures later { O.faults out.old ≤ O.faults out.new }
    ensures store { result.status ≡ 5 → Rose (K.faults keeper) (K.faults result.keeper) }
    ensures files { result.status ≡ 7 → Rose (F.faults files.old) (F.faults files.new) }
    ensures files_later { F.faults files.old ≤ F.faults files.new }
    ensures usage { result.status ≡ 2 → ⊥ }
    ensures same { F.told files.new ≡ F.told files.old }
{
    match open_office(alloc, DataFiles::Unread, files, keeper, clock) {
        Ok(Opened { office, now: _ }) => {
            serve_on::<Brand, Brand, R, K, D, C>(
                rt,
                alloc,
                Blank::new(),
                office,
                door,
                clock,
                workers,
            )
        }
        Err(Unserved { why, keeper }) => Ran {
            status: tell(why, out),
            keeper,
            door,
        },
    }
}

// The status of the process once the workers have ended.
fn code_of(served: Served) -> u8
    ensures { result ≡ served_code served }
{
    match served {
        Served::Ended => 0,
        Served::Broken => 3,
        Served::NoMemory => 6,
    }
}

// A shelf under a name whose first edition is the office's, with so many desks.
fn open_shelf<J: Shelves, S: Wait + Drop, K: Keeper>(
    rt: S,
    alloc: Global,
    blank: Blank<Edition>,
    office: &Office<K>,
    workers: usize,
) -> Result<(Publisher<Edition, J, S>, Vec<Desk<Edition, J>>), NoMemory>
    requires list { blank.seen.book ≡ J.book }
    requires workers { (1 ≤ workers) × (workers ≤ 16) }
    requires stands { Stands (standing_in office.now) [] }
    ensures shown { IfOk result (λ made. made.0.0 ≡ standing_in office.now ∷ []) }
    ensures desks { IfOk result (λ made. vec_len made.1 ≡ workers) }
{
    let mut publisher = shelf::<Edition, J, S>(rt, alloc, blank, office.edition()?, workers)?;
    let desks = make_desks(alloc, &mut publisher, workers)?;
    Ok((publisher, desks))
}

// So many desks.
fn make_desks<J: Shelves, S: Wait + Drop>(
    alloc: Global,
    publisher: &mut Publisher<Edition, J, S>,
    workers: usize,
) -> Result<Vec<Desk<Edition, J>>, NoMemory>
    ensures desks { IfOk result (λ desks. vec_len desks ≡ workers) }
    ensures same { publisher.new ≡ publisher.old }
{
    let mut desks = Vec::new(alloc);
    for _ in 0..workers {
        desks.push(publisher.desk()?)?;
    }
    Ok(desks)
}

// Serves the connections of the door over an office, under the names that the caller picks.
#[tactic(auto, using(crate::proofs::ListeningLaws::has_shut))]
fn serve_on<
    J: Shelves + Send + Sync,
    B: Since + Send + Sync,
    R: Threads + Wait + Sync,
    K: Keeper + Drop + Send,
    D: Door + Drop,
    C: Clock + Drop,
>(
    rt: &R,
    alloc: Global,
    blank: Blank<Edition>,
    office: Office<K>,
    door: D,
    clock: &C,
    workers: usize,
) -> Ran<K, D>
    requires list { blank.seen.book ≡ J.book }
    requires door { B.base ≡ D.faults door }
    requires workers { (1 ≤ workers) × (workers ≤ 16) }
    requires stands { Stands (standing_in office) [] }
    ensures shut { HasShut workers (D.faults door) (D.faults result.door) (D.ended result.door) result.status }
{
    let Ok((publisher, desks)) = open_shelf::<J, &R, K>(rt, alloc, blank, &office, workers) else {
        return Ran {
            status: code_of(Served::NoMemory),
            keeper: office.close(),
            door,
        };
    };
    let bureau = Mutex::new(Bureau::new(office, publisher));
    let Shut { served, door } = serve_door(
        rt,
        alloc,
        desks,
        &bureau,
        Doorway::<D, B>::new(door),
        clock,
        &Open,
    );
    Ran {
        status: code_of(served),
        keeper: bureau.into_inner().close(),
        door,
    }
}
