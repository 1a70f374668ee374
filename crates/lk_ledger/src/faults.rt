ghost use Rattle.std.specs.Prelude.{◌≡◌};
ghost use Rattle.lk_ledger.specs.Causes.{HasKeepCause, count_after};

use lk_val::NoMemory;
use std::alloc::AllocError;
use thiserror::Error;

/// Why the store was not read, or a save not made.
#[derive(Clone, Copy, Debug, PartialEq, Eq, Error)]
pub enum KeepFault {
    /// The store could not be read or written; the count of faults rose.
    #[error("could not read or write the store")]
    Failed,
    /// An allocation was refused.
    #[error("out of memory")]
    NoMemory,
}

impl From<NoMemory> for KeepFault {
    ghost use Rattle.lk_ledger.specs.declared.faults.KeepFault.{KeepFault};

    ghost from_gives = { λ _ fault. fault ≡ KeepFault.NoMemory };

    fn from(_: NoMemory) -> KeepFault {
        KeepFault::NoMemory
    }
}

impl From<AllocError> for KeepFault {
    ghost use Rattle.lk_ledger.specs.declared.faults.KeepFault.{KeepFault};

    ghost from_gives = { λ _ fault. fault ≡ KeepFault.NoMemory };

    fn from(_: AllocError) -> KeepFault {
        KeepFault::NoMemory
    }
}

/// A store's count of faults after a call: one more where the call failed, up to the greatest of 64 bits, and else the same.
pub fn faults_after<T>(faults: u64, answer: &Result<T, KeepFault>) -> u64
    ensures counted { result ≡ count_after faults answer.now }

    ensures cause { HasKeepCause faults result answer.now }
{
    match answer {
        Err(KeepFault::Failed) => faults.saturating_add(1),
        _ => faults,
    }
}
