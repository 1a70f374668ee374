ghost use Rattle.std.specs.Prelude.{◌≡◌};

use lk_val::NoMemory;
use std::alloc::AllocError;
use thiserror::Error;

/// An outside call failed. It says nothing more: the caller only learns that the count of faults rose.
#[derive(Clone, Copy, Debug, PartialEq, Eq, Error)]
#[error("could not read or write")]
pub struct Failed;

/// Why a folder was not listed, or a file not read.
#[derive(Clone, Copy, Debug, PartialEq, Eq, Error)]
pub enum FileFault {
    /// The folder or the file is missing or could not be read; the count of faults rose.
    #[error("could not read the folder or the file")]
    Failed,
    /// The file has more than 67,108,864 bytes.
    #[error("the file is larger than 67,108,864 bytes")]
    TooBig,
    /// An allocation was refused.
    #[error("out of memory")]
    NoMemory,
}

impl From<NoMemory> for FileFault {
    ghost use Rattle.lk_io.specs.declared.faults.FileFault.{FileFault};

    ghost from_gives = { λ _ fault. fault ≡ FileFault.NoMemory };

    fn from(_: NoMemory) -> FileFault {
        FileFault::NoMemory
    }
}

impl From<AllocError> for FileFault {
    ghost use Rattle.lk_io.specs.declared.faults.FileFault.{FileFault};

    ghost from_gives = { λ _ fault. fault ≡ FileFault.NoMemory };

    fn from(_: AllocError) -> FileFault {
        FileFault::NoMemory
    }
}
