// Runs of the program that serve connections in memory.
use crate::fault::CaseFault;
use crate::project::{batches, clock, folder, keeper};
use crate::stream::{CaseLink, Telling, Waiting};
use crate::text::{bytes_of, on_one_line};
use lk_io::{FolderFiles, MemClock, MemSink, MemSource, Pair};
use lk_ledger::{Keeper, MemKeeper};
use lk_listen::{Door, MemDoor};
use lk_serve::run;
use lk_val::{Bytes, Items, Text};
use std::alloc::Global;
use std::sync::{Mutex, Wait};
use std::thread::Threads;

/// The answer of `PROJECT WORKERS COUNT | REQUESTS`: the status, what the store holds then, and what each
/// connection was sent, as often as it is the same.
pub fn answer_served<R: Threads + Wait + Sync + AllocGlobal>(
    rt: &HostRuntime,
    threads: &R,
    call: &str,
    requests: &str,
    is_filled: bool,
) -> Result<Text, CaseFault> {
    let alloc = rt.alloc();
    let (project, call) = call.split_once(" ").ok_or(CaseFault::NoSuchCase)?;
    let (workers, count) = call.split_once(" ").ok_or(CaseFault::NoSuchCase)?;
    let mut files = folder(rt, project)?;
    let chunks = if is_filled {
        batches(alloc, &mut files)?
    } else {
        Items::new(alloc)
    };
    let count = count.parse::<u8>().or(Err(CaseFault::NoSuchCase))?;
    let told = tellings(alloc, count)?;
    let links = links_of(threads, told.as_slice(), &bytes_of(alloc, requests)?)?;
    let door = MemDoor::new(links, Items::new(alloc));
    let end = run_over(threads, workers, &mut files, keeper(alloc, chunks), door)?;
    print_sent(alloc, end, told)
}

/// Where so many connections tell what they are sent.
pub fn tellings(alloc: Global, count: u8) -> Result<Vec<Mutex<Vec<u8>>>, CaseFault> {
    let mut told = Vec::new(alloc);
    for _ in 0..count {
        told.push(Mutex::new(Vec::new(alloc)))?;
    }
    Ok(told)
}

// A connection with these bytes for each telling.
fn links_of<'a, R: Wait + Sync + AllocGlobal>(
    threads: &'a R,
    told: &'a [Mutex<Vec<u8>>],
    bytes: &Bytes,
) -> Result<Items<CaseLink<'a, R>>, CaseFault> {
    let alloc = threads.alloc();
    let mut links = Items::new(alloc);
    for told in told {
        let source = Waiting {
            bytes: MemSource::new(bytes.copy(alloc)?, Items::new(alloc)),
            until: None,
            faults: 0,
        };
        let sink = Telling {
            rt: threads,
            told,
            faults: 0,
        };
        links.push(Pair::new(source, sink))?;
    }
    Ok(links)
}

/// The status of `serve` with so many workers over a project, a store and a door, and how much the store holds then.
pub fn run_over<R: Threads + Wait + Sync + AllocGlobal, D: Door + Drop>(
    threads: &R,
    workers: &str,
    files: &mut FolderFiles<HostRuntime>,
    keeper: MemKeeper,
    door: D,
) -> Result<Text, CaseFault> {
    let alloc = threads.alloc();
    let mut words = Items::new(alloc);
    for word in ["serve", "d", "127.0.0.1:0", workers] {
        words.push(Text::from_str(alloc, word)?)?;
    }
    let mut input = MemSource::new(Bytes::new(alloc), Items::new(alloc));
    let mut out = MemSink::new(alloc, 0, Items::new(alloc))?;
    let mut clock: MemClock = clock(alloc)?;
    let ran = run(
        threads,
        alloc,
        words.as_slice(),
        files,
        keeper,
        &mut input,
        &mut out,
        door,
        &mut clock,
    );
    print_end(alloc, ran.status, ran.keeper)
}

// The status, and the number of a store with how many batches and loads it holds.
fn print_end(alloc: Global, status: u8, mut keeper: MemKeeper) -> Result<Text, CaseFault> {
    let kept = keeper.load_all(alloc).or(Err(CaseFault::NoProject))?;
    let (number, batches, loads) = (kept.number, kept.chunks.len(), kept.ids.len());
    Ok(Text::from_string(format!(in alloc;
        "{status}; {number}: {batches} batches, {loads} loads"
    )?))
}

// How the run ended, and each thing that was sent with how many connections it was sent to.
fn print_sent(alloc: Global, end: Text, told: Vec<Mutex<Vec<u8>>>) -> Result<Text, CaseFault> {
    let mut sent: Vec<(Text, u64)> = Vec::new(alloc);
    for told in told {
        let text = on_one_line(alloc, told.into_inner().as_slice())?;
        let place = sent.iter().position(|other| other.0 == text);
        match place.and_then(|place| sent.get_mut(place)) {
            Some(other) => other.1 = other.1.saturating_add(1),
            None => sent.push((text, 1))?,
        }
    }
    let end = end.as_str();
    let mut answer = format!(in alloc; "{end}")?;
    for (text, count) in sent.iter() {
        let text = text.as_str();
        answer.push_str(format!(in alloc; "; {count} times {text}")?.as_str())?;
    }
    Ok(Text::from_string(answer))
}
