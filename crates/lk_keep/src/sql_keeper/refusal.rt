// Why the tables of a store were not read or written.
ghost use Rattle.std.specs.Prelude.{◌≡◌, ◌↔◌};

use lk_ledger::KeepFault;
use lk_val::NoMemory;
use sqlite::{Error, ErrorCode};
use sqlite_std_file::OpenError;
use std::io;

#[derive(Clone, Copy, PartialEq, Eq)]
pub(crate) enum Refusal {
    Failed,
    NoMemory,
}

impl From<Error> for Refusal {
    ghost use Rattle.lk_keep.specs.declared.sql_keeper.refusal.Refusal.TheVariants as refusal;
    ghost use Rattle.sqlite.specs.declared.error.Error.TheVariants.{SqliteFailure};
    ghost use Rattle.sqlite.specs.declared.error.ErrorCode.TheVariants.{OutOfMemory};

    ghost from_gives = { λ error it. (it ≡ refusal.NoMemory) ↔ (error ≡ SqliteFailure OutOfMemory) };

    fn from(error: Error) -> Refusal {
        match error {
            Error::SqliteFailure(ErrorCode::OutOfMemory) => Refusal::NoMemory,
            _ => Refusal::Failed,
        }
    }
}

impl From<OpenError> for Refusal {
    fn from(error: OpenError) -> Refusal {
        match error {
            OpenError::OutOfMemory => Refusal::NoMemory,
            OpenError::Io(error) => Refusal::from(error),
            _ => Refusal::Failed,
        }
    }
}

impl From<io::Error> for Refusal {
    fn from(error: io::Error) -> Refusal {
        match error.kind() {
            io::ErrorKind::OutOfMemory => Refusal::NoMemory,
            _ => Refusal::Failed,
        }
    }
}

impl From<NoMemory> for Refusal {
    ghost use Rattle.lk_keep.specs.declared.sql_keeper.refusal.Refusal.TheVariants as refusal;

    ghost from_gives = { λ _ it. it ≡ refusal.NoMemory };

    fn from(_: NoMemory) -> Refusal {
        Refusal::NoMemory
    }
}

impl From<Refusal> for KeepFault {
    ghost use Rattle.lk_keep.specs.declared.sql_keeper.refusal.Refusal.TheVariants as refusal;
    ghost use Rattle.lk_ledger.specs.declared.faults.KeepFault.TheVariants as fault;

    ghost from_gives = { λ given it. (it ≡ fault.NoMemory) ↔ (given ≡ refusal.NoMemory) };

    fn from(refusal: Refusal) -> KeepFault {
        match refusal {
            Refusal::Failed => KeepFault::Failed,
            Refusal::NoMemory => KeepFault::NoMemory,
        }
    }
}
