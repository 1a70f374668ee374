ghost use Rattle.std.specs.Prelude.{◌≡◌};

use lk_table::BatchFault;
use lk_val::{NoMemory, Text};
use std::alloc::{AllocError, AllocFailed};

/// Why a server does not open. Of several faults the first kept batch goes before the first seed, that before the limits of the
/// state, and these before builds that are too large. (lookd)
#[derive(Drop)]
pub enum OpenFault {
    /// The store's count of faults rose.
    Store,
    /// A kept batch doesn't read, or not into its table, whose name is given.
    Unread(Text, BatchFault),
    /// The seed of the table doesn't read.
    Seed(Text, BatchFault),
    /// The state is over a limit. (L6)
    Full,
    /// The build of the name would have more than 1,000,000 cells. (G2)
    Large(Text),
    /// Want of memory.
    NoMemory,
}

impl From<NoMemory> for OpenFault {
    ghost use Rattle.std.specs.Prelude.{◌≡◌};
    ghost use Rattle.lk_state.specs.declared.fault.OpenFault.TheVariants as fault;

    ghost from_gives = { λ _ e. e ≡ fault.NoMemory };

    fn from(_: NoMemory) -> OpenFault {
        OpenFault::NoMemory
    }
}

impl From<AllocError> for OpenFault {
    ghost use Rattle.std.specs.Prelude.{◌≡◌};
    ghost use Rattle.lk_state.specs.declared.fault.OpenFault.TheVariants as fault;

    ghost from_gives = { λ _ e. e ≡ fault.NoMemory };

    fn from(_: AllocError) -> OpenFault {
        OpenFault::NoMemory
    }
}

impl<T: Drop> From<AllocFailed<T>> for OpenFault {
    ghost use Rattle.std.specs.Prelude.{◌≡◌};
    ghost use Rattle.lk_state.specs.declared.fault.OpenFault.TheVariants as fault;

    ghost from_gives = { λ _ e. e ≡ fault.NoMemory };

    fn from(_: AllocFailed<T>) -> OpenFault {
        OpenFault::NoMemory
    }
}
