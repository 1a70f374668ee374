use lk_val::{Bytes, Copied, Items, NoMemory, Text};
use std::alloc::Global;

/// What a store hands over at opening: the number of the last save, 0 before any, and of the loads their
/// batches and ids in order of their saves. (lookd)
#[derive(Drop)]
pub struct Kept {
    pub number: u64,
    pub chunks: Items<Chunk>,
    pub ids: Items<KeptId>,
}

/// A saved batch: the table's name, and the batch's canonical text in CSV.
#[derive(Drop)]
pub struct Chunk {
    pub table: Text,
    pub body: Bytes,
}

/// The id of an accepted load, with what its reply says: the snapshot's number and how many rows were loaded.
#[derive(Drop)]
pub struct KeptId {
    pub id: Text,
    pub number: u64,
    pub rows: u64,
}

impl Copied for Chunk {
    fn copied(&self, alloc: Global) -> Result<Chunk, NoMemory> {
        Ok(Chunk {
            table: self.table.copy(alloc)?,
            body: self.body.copy(alloc)?,
        })
    }
}

impl Copied for KeptId {
    fn copied(&self, alloc: Global) -> Result<KeptId, NoMemory> {
        Ok(KeptId {
            id: self.id.copy(alloc)?,
            number: self.number,
            rows: self.rows,
        })
    }
}
