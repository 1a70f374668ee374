ghost use Rattle.std.specs.Prelude.{◌≡◌, IfOk};
ghost use Rattle.lk_ledger.specs.Saving.{chunk_of, id_of};

use crate::kept::{Chunk, KeptId};
use lk_val::{Bytes, NoMemory, Text};
use std::alloc::Global;

/// An accepted load to be saved: the number of the snapshot that it makes, its id, its table, whether its
/// batch takes the place of the table's rows, how many rows the batch has, and its canonical text in CSV. (lookd)
#[derive(Drop)]
pub struct Command {
    pub number: u64,
    pub id: Text,
    pub table: Text,
    pub replace: bool,
    pub rows: u64,
    pub body: Bytes,
}

impl Command {
    // A copy of the batch.
    pub(crate) fn chunk(&self, alloc: Global) -> Result<Chunk, NoMemory>
        ensures { IfOk result (λ chunk. chunk ≡ chunk_of self.now) }
    {
        Ok(Chunk {
            table: self.table.copy(alloc)?,
            body: self.body.copy(alloc)?,
        })
    }

    // A copy of the id, with what the reply says.
    pub(crate) fn kept_id(&self, alloc: Global) -> Result<KeptId, NoMemory>
        ensures { IfOk result (λ id. id ≡ id_of self.now) }
    {
        Ok(KeptId {
            id: self.id.copy(alloc)?,
            number: self.number,
            rows: self.rows,
        })
    }
}
