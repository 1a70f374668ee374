// The projects of the cases.
use crate::fault::CaseFault;
use lk_io::{Files, FolderFiles, MemClock};
use lk_ledger::{Chunk, Kept, MemKeeper};
use lk_val::{Items, Text};
use std::alloc::Global;

// The moment of all clocks: 2024-03-02 00:00:00 UTC, in seconds from 1970-01-01 00:00:00 UTC.
const NOW: i64 = 1_709_337_600;

/// The files of a project.
pub fn folder(rt: &HostRuntime, project: &str) -> Result<FolderFiles<HostRuntime>, CaseFault> {
    Ok(FolderFiles::at(rt.clone()?, Text::from_str(rt.alloc(), project)?))
}

/// A clock that stands still.
pub fn clock(alloc: Global) -> Result<MemClock, CaseFault> {
    let mut moments = Items::new(alloc);
    moments.push(NOW)?;
    Ok(MemClock::new(moments))
}

/// A store at the number 0 with these batches.
pub fn keeper(alloc: Global, chunks: Items<Chunk>) -> MemKeeper {
    let kept = Kept {
        number: 0,
        chunks,
        ids: Items::new(alloc),
    };
    MemKeeper::new(kept, Items::new(alloc))
}

/// The data files of a project, each as a batch of its table.
pub fn batches(
    alloc: Global,
    files: &mut FolderFiles<HostRuntime>,
) -> Result<Items<Chunk>, CaseFault> {
    let mut chunks = Items::new(alloc);
    for table in ["users", "orders", "items"] {
        let path = Text::from_string(format!(in alloc; "data/{table}.csv")?);
        if let Ok(body) = files.read(alloc, &path) {
            let table = Text::from_str(alloc, table)?;
            chunks.push(Chunk { table, body })?;
        }
    }
    Ok(chunks)
}
