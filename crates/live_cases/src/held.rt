// Two connections side by side, of which one's first query is held while the other loads and asks.
ghost use Rattle.std.specs.Prelude.{◌≡◌, ◌∷◌, [], IfOk, vec_len};
ghost use Rattle.lk_edition.specs.Histories.{Stands};
ghost use Rattle.lk_edition.specs.Offices.{standing_in};

use crate::fault::CaseFault;
use crate::gate::Holding;
use crate::project::{clock, folder, keeper};
use crate::served::tellings;
use crate::stream::{CaseLink, Telling, Waiting};
use crate::text::{bytes_of, on_one_line};
use lk_bureau::Bureau;
use lk_door::{Doorway, Served, Since, serve_door};
use lk_edition::{Edition, Office};
use lk_front::{Blank, Shelves};
use lk_io::{MemClock, MemSource, Pair};
use lk_ledger::MemKeeper;
use lk_listen::MemDoor;
use lk_serve::{DataFiles, open_office};
use lk_shelf::{Desk, Publisher, shelf};
use lk_val::{Items, Text};
use std::alloc::Global;
use std::marker::Brand;
use std::sync::{Mutex, Wait};
use std::thread::Threads;

/// The answer of `PROJECT | REQUESTS | REQUESTS`: how the serving ended, whether a wait was given up, and what each connection was
/// sent. The second one sends its first byte once the first one's query is held.
pub fn answer_held<R: Threads + Wait + Sync + AllocGlobal>(
    rt: &HostRuntime,
    threads: &R,
    project: &str,
    requests: &str,
) -> Result<Text, CaseFault> {
    let alloc = rt.alloc();
    let (first, second) = requests.split_once(" | ").ok_or(CaseFault::NoSuchCase)?;
    let gate = Holding::new();
    let told = tellings(alloc, 2)?;
    let door = door_of(threads, told.as_slice(), &gate, first, second)?;
    let served = open_and_serve(rt, threads, project, door, &gate)?;
    print_sent(alloc, end_of(served, gate.is_late()), told)
}

// A door that gives two connections: one that sends its requests at once, and one that does once the gate holds a query.
fn door_of<'a, R: Wait + Sync + AllocGlobal>(
    threads: &'a R,
    told: &'a [Mutex<Vec<u8>>],
    gate: &'a Holding,
    first: &str,
    second: &str,
) -> Result<MemDoor<CaseLink<'a, R>>, CaseFault> {
    let alloc = threads.alloc();
    let mut links = Items::new(alloc);
    let mut requests = first;
    let mut until = None;
    for told in told {
        let source = Waiting {
            bytes: MemSource::new(bytes_of(alloc, requests)?, Items::new(alloc)),
            until,
            faults: 0,
        };
        let sink = Telling {
            rt: threads,
            told,
            faults: 0,
        };
        links.push(Pair::new(source, sink))?;
        requests = second;
        until = Some(gate);
    }
    Ok(MemDoor::new(links, Items::new(alloc)))
}

// Opens the project with its data files over an empty store, and serves the door's connections by two workers.
fn open_and_serve<R: Threads + Wait + Sync + AllocGlobal>(
    rt: &HostRuntime,
    threads: &R,
    project: &str,
    door: MemDoor<CaseLink<'_, R>>,
    gate: &Holding,
) -> Result<Served, CaseFault> {
    let alloc = rt.alloc();
    let mut files = folder(rt, project)?;
    let mut clock = clock(alloc)?;
    let store = keeper(alloc, Items::new(alloc));
    let Ok(opened) = open_office(alloc, DataFiles::Read, &mut files, store, &mut clock) else {
        return Err(CaseFault::NoProject);
    };
    serve_two::<Brand, Brand, R>(threads, Blank::new(), opened.office, door, &clock, gate)
}

// Serves by two workers, under the names that the caller picks.
fn serve_two<
    J: Shelves + Send + Sync,
    B: Since + Send + Sync,
    R: Threads + Wait + Sync + AllocGlobal,
>(
    rt: &R,
    blank: Blank<Edition>,
    office: Office<MemKeeper>,
    door: MemDoor<CaseLink<'_, R>>,
    clock: &MemClock,
    gate: &Holding,
) -> Result<Served, CaseFault>
    requires list { blank.seen.book ≡ J.book }
    requires door { B.base ≡ door.calls.faults }
    requires stands { Stands (standing_in office) [] }
{
    let alloc = rt.alloc();
    let (publisher, desks) = open_shelf::<J, &R>(rt, alloc, blank, &office)?;
    let bureau = Mutex::new(Bureau::new(office, publisher));
    let shut = serve_door(
        rt,
        alloc,
        desks,
        &bureau,
        Doorway::<_, B>::new(door),
        clock,
        gate,
    );
    Ok(shut.served)
}

// A shelf under a name whose first edition is the office's, with two desks.
fn open_shelf<J: Shelves, S: Wait + Drop>(
    rt: S,
    alloc: Global,
    blank: Blank<Edition>,
    office: &Office<MemKeeper>,
) -> Result<(Publisher<Edition, J, S>, Vec<Desk<Edition, J>>), CaseFault>
    requires list { blank.seen.book ≡ J.book }
    requires stands { Stands (standing_in office.now) [] }
    ensures shown { IfOk result (λ made. made.0.0 ≡ standing_in office.now ∷ []) }
    ensures desks { IfOk result (λ made. vec_len made.1 ≡ 2) }
{
    let mut publisher = shelf::<Edition, J, S>(rt, alloc, blank, office.edition()?, 2)?;
    let mut desks = Vec::new(alloc);
    desks.push(publisher.desk()?)?;
    desks.push(publisher.desk()?)?;
    Ok((publisher, desks))
}

fn end_of(served: Served, is_late: bool) -> &'static str {
    match served {
        _ if is_late => "late",
        Served::Ended => "ended",
        Served::Broken => "broken",
        Served::NoMemory => "no memory",
    }
}

fn print_sent(alloc: Global, end: &str, told: Vec<Mutex<Vec<u8>>>) -> Result<Text, CaseFault> {
    let mut answer = format!(in alloc; "{end}")?;
    for told in told {
        let text = on_one_line(alloc, told.into_inner().as_slice())?;
        let text = text.as_str();
        answer.push_str(format!(in alloc; "; {text}")?.as_str())?;
    }
    Ok(Text::from_string(answer))
}
