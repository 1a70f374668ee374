// Runs of the program, each over what the lines before it set.
use crate::fault::CaseFault;
use crate::outside::{clock_at, door_of, files_of, input_of, keeper_of, output_of};
use crate::printed::{add_batches, answer_of, on_one_line};
use lk_io::{MemClock, MemFiles, MemLink, MemSink, MemSource};
use lk_keep::{Keeper, Kept, MemKeeper};
use lk_listen::MemDoor;
use lk_serve::{Ran, run};
use lk_val::{Items, NoMemory, Text};
use std::alloc::Global;
use std::sync::Wait;
use std::thread::Threads;

/// What the lines behind a line stand on: the files that they change, the moment of the clock, what stands around the runs, and
/// what the store of the last run held in the end: how much, and its batches; and how many calls of its door failed.
#[derive(Drop)]
pub struct Base {
    pub files: Text,
    pub now: i64,
    pub outside: Text,
    pub kept: Text,
    pub batches: Text,
    pub door: Text,
}

impl Base {
    /// Nothing is set.
    pub fn new(alloc: Global) -> Base {
        Base {
            files: Text::new(alloc),
            now: 0,
            outside: Text::new(alloc),
            kept: Text::new(alloc),
            batches: Text::new(alloc),
            door: Text::new(alloc),
        }
    }
}

/// A run of these words, which spaces part: its status, and what it wrote.
pub fn answer_run<R: Threads + Wait + Sync + AllocGlobal>(
    threads: &R,
    base: &mut Base,
    words: &str,
    body: &str,
    fields: &str,
) -> Result<Text, CaseFault> {
    let alloc = threads.alloc();
    let mut out = output_of(alloc, base.outside.as_str())?;
    let mut input = input_of(alloc, base.outside.as_str(), body)?;
    let status = run_words(threads, base, words, fields, &mut input, &mut out)?;
    answer_of(alloc, status, out.held())
}

fn run_words<R: Threads + Wait + Sync + AllocGlobal>(
    threads: &R,
    base: &mut Base,
    words: &str,
    fields: &str,
    input: &mut MemSource,
    out: &mut MemSink,
) -> Result<u8, CaseFault> {
    let alloc = threads.alloc();
    let words = texts_of(alloc, words)?;
    let mut files = folder_of(alloc, base, fields)?;
    let mut clock = clock_at(alloc, base.outside.as_str(), base.now)?;
    let keeper = keeper_of(alloc, base.outside.as_str())?;
    let door = door_of(alloc, base.outside.as_str());
    let mut ran = run_over(
        threads,
        words.as_slice(),
        &mut files,
        keeper,
        input,
        out,
        door,
        &mut clock,
    );
    base.door = told_door(alloc, &ran.door)?;
    tell_store(alloc, base, &mut ran.keeper)?;
    Ok(ran.status)
}

// The run. It has a function of its own, since its clauses are dear to whoever calls it.
fn run_over<R: Threads + Wait + Sync + AllocGlobal>(
    threads: &R,
    words: &[Text],
    files: &mut MemFiles,
    keeper: MemKeeper,
    input: &mut MemSource,
    out: &mut MemSink,
    door: MemDoor<MemLink>,
    clock: &mut MemClock,
) -> Ran<MemKeeper, MemDoor<MemLink>> {
    let alloc = threads.alloc();
    run(
        threads, alloc, words, files, keeper, input, out, door, clock,
    )
}

// How many calls of a door failed.
fn told_door(alloc: Global, door: &MemDoor<MemLink>) -> Result<Text, CaseFault> {
    let failed = door.faults();
    Ok(Text::from_string(format!(in alloc; "{failed} failed")?))
}

fn texts_of(alloc: Global, words: &str) -> Result<Items<Text>, NoMemory> {
    let mut texts = Items::new(alloc);
    for word in words.split(' ') {
        texts.push(Text::from_str(alloc, word)?)?;
    }
    Ok(texts)
}

// The files that were set, with those of the line.
fn folder_of(alloc: Global, base: &Base, fields: &str) -> Result<MemFiles, CaseFault> {
    let files = base.files.as_str();
    let fields = format!(in alloc; "{files} | {fields}")?;
    files_of(alloc, fields.as_str())
}

// Tells what a store holds: its number, how many loads and batches, how many of its calls failed, and the batches.
fn tell_store(alloc: Global, base: &mut Base, keeper: &mut MemKeeper) -> Result<(), CaseFault> {
    let failed = keeper.faults();
    let kept = all_of(alloc, keeper)?;
    let (number, loads, batches) = (kept.number, kept.ids.len(), kept.chunks.len());
    let told = format!(in alloc; "{number}: {loads} loads, {batches} batches, {failed} failed")?;
    base.kept = Text::from_string(told);
    let mut told = String::new(alloc);
    add_batches(alloc, kept.chunks.as_slice(), &mut told)?;
    base.batches = on_one_line(alloc, told.as_str())?;
    Ok(())
}

// All that a store holds, also where the call that tells it is one that fails.
fn all_of(alloc: Global, keeper: &mut MemKeeper) -> Result<Kept, CaseFault> {
    match keeper.load_all(alloc) {
        Ok(kept) => Ok(kept),
        Err(_) => keeper.load_all(alloc).ok().ok_or(CaseFault::NoSuchCase),
    }
}
