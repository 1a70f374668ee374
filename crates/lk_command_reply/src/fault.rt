ghost use Rattle.std.specs.Prelude.{◌≡◌};

use lk_val::{NoMemory, Text, Value};
use std::alloc::AllocFailed;

/// Why a load is refused. Where it could be for several reasons, the first of L1, L2, L3, L5, L4, L6 is told. (lookd)
#[derive(Drop)]
pub enum LoadFault {
    /// The user of the name has no attribute `loader`. (L1)
    L1(Text),
    /// The schema has no table of the name. (L2)
    L2(Text),
    /// A name of the header is no column's or stands twice (row 0), or the cell of a row is no value of the column. (L3)
    L3 { row: u32, column: Text },
    /// The key stands twice in the batch, or the table that it is appended to holds it. (L4)
    L4(Value),
    /// The key of the row is null. (L5)
    L5(u32),
    /// Afterwards the tables would have over 4,000,000 cells or 134,217,728 bytes of text, there would be over 100,000 kept
    /// loads, or the state's number would be over 9,223,372,036,854,775,807. (L6)
    L6,
    /// Want of memory.
    NoMemory,
}

impl From<NoMemory> for LoadFault {
    ghost use Rattle.std.specs.Prelude.{◌≡◌};
    ghost use Rattle.lk_command_reply.specs.declared.fault.LoadFault.TheVariants as fault;

    ghost from_gives = { λ _ e. e ≡ fault.NoMemory };

    fn from(_: NoMemory) -> LoadFault {
        LoadFault::NoMemory
    }
}

impl<T: Drop> From<AllocFailed<T>> for LoadFault {
    ghost use Rattle.std.specs.Prelude.{◌≡◌};
    ghost use Rattle.lk_command_reply.specs.declared.fault.LoadFault.TheVariants as fault;

    ghost from_gives = { λ _ e. e ≡ fault.NoMemory };

    fn from(_: AllocFailed<T>) -> LoadFault {
        LoadFault::NoMemory
    }
}

/// Why a check is refused. (lookd)
#[derive(Drop)]
pub enum CheckFault {
    /// The user of the name has no attribute `loader`. (G1)
    G1(Text),
    /// The build of the name would have more than 1,000,000 cells; or, with an empty name, the state's number would be over
    /// 9,223,372,036,854,775,807. (G2)
    G2(Text),
    /// Want of memory.
    NoMemory,
}

impl From<NoMemory> for CheckFault {
    ghost use Rattle.std.specs.Prelude.{◌≡◌};
    ghost use Rattle.lk_command_reply.specs.declared.fault.CheckFault.TheVariants as fault;

    ghost from_gives = { λ _ e. e ≡ fault.NoMemory };

    fn from(_: NoMemory) -> CheckFault {
        CheckFault::NoMemory
    }
}
