use lk_val::NoMemory;
use std::alloc::{AllocError, AllocFailed};
use std::{fmt, io};

/// Why a line has no answer.
#[derive(Clone, Copy, PartialEq, Eq)]
pub enum CaseFault {
    /// The line is no case.
    NoSuchCase,
    /// The project does not open.
    NoProject,
    /// No connection to the system itself.
    NoLoopback,
    /// There is no memory for the answer.
    NoMemory,
}

impl fmt::Display for CaseFault {
    fn fmt<W: fmt::Write>(&self, f: &mut fmt::Formatter<W>) -> fmt::Result {
        match self {
            CaseFault::NoSuchCase => write!(f, "no such case"),
            CaseFault::NoProject => write!(f, "no project"),
            CaseFault::NoLoopback => write!(f, "no loopback"),
            CaseFault::NoMemory => write!(f, "no memory"),
        }
    }
}

impl From<NoMemory> for CaseFault {
    fn from(_: NoMemory) -> CaseFault {
        CaseFault::NoMemory
    }
}

impl From<AllocError> for CaseFault {
    fn from(_: AllocError) -> CaseFault {
        CaseFault::NoMemory
    }
}

impl From<io::Error> for CaseFault {
    fn from(_: io::Error) -> CaseFault {
        CaseFault::NoLoopback
    }
}

impl<T: Drop> From<AllocFailed<T>> for CaseFault {
    fn from(_: AllocFailed<T>) -> CaseFault {
        CaseFault::NoMemory
    }
}
