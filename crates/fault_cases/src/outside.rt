// What stands around a run. The fields of `outside` are `input 1 fails`, `output 2 fails` and `store 0 fails`, which let a call
// fail, counted from 0; `clock of 60 seconds`, so many between a moment and the next; `room of 20 bytes` for the output; `store of
// 3 loads`, of one row each, whose batches are gone; `door fails`, of which each call does; `batch TABLE of TEXT`, one load more of one row, whose batch is there; and
// `store at 9`, the store's number in place of how many loads there are. The fields of files are `PATH = TEXT`, in place of a file
// that stands there, `PATH` alone, which takes it away, and `call 3 fails`.

use crate::fault::CaseFault;
use crate::fields::{bytes_of, failing, number_in, parted};
use lk_io::{File, MemClock, MemFiles, MemLink, MemSink, MemSource};
use lk_keep::{Chunk, Kept, KeptId, MemKeeper};
use lk_listen::MemDoor;
use lk_val::{Items, NoMemory, Text};
use std::alloc::Global;

// The most bytes that a run writes, where no field says otherwise.
const ROOM: u64 = 65_536;

// How many moments a clock shows before its last.
const MOMENTS: usize = 7;

// The most seconds between two moments of a clock.
const A_YEAR: u64 = 31_536_000;

/// A folder of these files.
pub fn files_of(alloc: Global, fields: &str) -> Result<MemFiles, CaseFault> {
    let failing = failing(alloc, fields, "call ")?;
    let mut files = Vec::new(alloc);
    for field in fields.split(" | ") {
        set_file(alloc, &mut files, field)?;
    }
    Ok(MemFiles::new(alloc, Items::from_vec(files), failing)?)
}

fn set_file(alloc: Global, files: &mut Vec<File>, field: &str) -> Result<(), CaseFault> {
    let (path, _) = parted(field, " =");
    files.retain(|file| file.path.as_str() != path);
    if let Some((path, text)) = field.split_once(" =") {
        let path = Text::from_str(alloc, path)?;
        let body = bytes_of(alloc, text.trim_start())?;
        files.push(File { path, body })?;
    }
    Ok(())
}

/// An input of this text.
pub fn input_of(alloc: Global, outside: &str, text: &str) -> Result<MemSource, CaseFault> {
    let failing = failing(alloc, outside, "input ")?;
    Ok(MemSource::new(bytes_of(alloc, text)?, failing))
}

/// An output.
pub fn output_of(alloc: Global, outside: &str) -> Result<MemSink, CaseFault> {
    let room = number_in(outside, "room of ", " bytes")
        .unwrap_or(ROOM)
        .min(ROOM);
    let failing = failing(alloc, outside, "output ")?;
    Ok(MemSink::new(alloc, room as usize, failing)?)
}

/// A clock that shows moments in seconds from 1970-01-01 00:00:00 UTC, so many seconds after one another as `outside` says, or all
/// the same.
pub fn clock_at(alloc: Global, outside: &str, now: i64) -> Result<MemClock, NoMemory> {
    let between = number_in(outside, "clock of ", " seconds").unwrap_or(0);
    let seconds = between.min(A_YEAR) as i64;
    let mut moments = Items::new(alloc);
    let mut moment = now;
    for _more in 0..MOMENTS {
        moments.push(moment)?;
        moment = moment.saturating_add(seconds);
    }
    moments.push(moment)?;
    Ok(MemClock::new(moments))
}

/// A door without connections, which ends at once, or one whose every call fails.
pub fn door_of(alloc: Global, outside: &str) -> MemDoor<MemLink> {
    if outside.split(" | ").any(|field| field == "door fails") {
        MemDoor::broken(alloc)
    } else {
        MemDoor::new(Items::new(alloc), Items::new(alloc))
    }
}

/// A store in memory.
pub fn keeper_of(alloc: Global, outside: &str) -> Result<MemKeeper, CaseFault> {
    let failing = failing(alloc, outside, "store ")?;
    Ok(MemKeeper::new(kept_of(alloc, outside)?, failing))
}

fn kept_of(alloc: Global, outside: &str) -> Result<Kept, CaseFault> {
    let chunks = batches_of(alloc, outside)?;
    let loads = number_in(outside, "store of ", " loads").unwrap_or(0);
    let loads = loads.saturating_add(chunks.len() as u64);
    let ids = ids_of(alloc, loads)?;
    let number = number_in(outside, "store at ", "").unwrap_or(loads);
    Ok(Kept {
        number,
        chunks,
        ids,
    })
}

fn batches_of(alloc: Global, outside: &str) -> Result<Items<Chunk>, CaseFault> {
    let mut chunks = Items::new(alloc);
    for field in outside.split(" | ") {
        if let Some(batch) = field.strip_prefix("batch ") {
            chunks.push(batch_of(alloc, batch)?)?;
        }
    }
    Ok(chunks)
}

fn batch_of(alloc: Global, batch: &str) -> Result<Chunk, CaseFault> {
    let (table, text) = parted(batch, " of ");
    let table = Text::from_str(alloc, table)?;
    let body = bytes_of(alloc, text)?;
    Ok(Chunk { table, body })
}

fn ids_of(alloc: Global, loads: u64) -> Result<Items<KeptId>, CaseFault> {
    let mut ids = Items::new(alloc);
    for number in 1..=loads {
        let id = Text::from_string(format!(in alloc; "{number}")?);
        ids.push(KeptId {
            id,
            number,
            rows: 1,
        })?;
    }
    Ok(ids)
}
