use lk_val::{NoMemory, Text, Value};
use std::alloc::{AllocError, AllocFailed};

/// Why a batch is not read, or not loaded into a table. Of several faults the first of L3, L5, L4 is told, and of each
/// the first in the order of the rows. (lookd)
#[derive(Drop)]
pub enum BatchFault {
    /// A name of the header is no column's or stands twice (row 0), or the cell of a row is no value of the column.
    /// A record of another length than the header has the empty name, and so has a batch without a header. (L3)
    L3 { row: u32, column: Text },
    /// The key stands twice in the batch, or the table that it is appended to holds it. (L4)
    L4(Value),
    /// The key of the row is null. (L5)
    L5(u32),
    /// Want of memory.
    NoMemory,
}

impl From<NoMemory> for BatchFault {
    ghost use Rattle.std.specs.Prelude.{◌≡◌};
    ghost use Rattle.lk_table.specs.declared.fault.BatchFault.TheVariants as fault;

    ghost from_gives = { λ _ e. e ≡ fault.NoMemory };

    fn from(_: NoMemory) -> BatchFault {
        BatchFault::NoMemory
    }
}

impl From<AllocError> for BatchFault {
    ghost use Rattle.std.specs.Prelude.{◌≡◌};
    ghost use Rattle.lk_table.specs.declared.fault.BatchFault.TheVariants as fault;

    ghost from_gives = { λ _ e. e ≡ fault.NoMemory };

    fn from(_: AllocError) -> BatchFault {
        BatchFault::NoMemory
    }
}

impl<T: Drop> From<AllocFailed<T>> for BatchFault {
    ghost use Rattle.std.specs.Prelude.{◌≡◌};
    ghost use Rattle.lk_table.specs.declared.fault.BatchFault.TheVariants as fault;

    ghost from_gives = { λ _ e. e ≡ fault.NoMemory };

    fn from(_: AllocFailed<T>) -> BatchFault {
        BatchFault::NoMemory
    }
}
