ghost use Rattle.std.specs.Prelude.{◌≡◌, ◌+◌, ◌-◌, ◌^◌, ◌≤◌, ℕ, min, true};

use lk_io::Failed;
use lk_listen::Door;
use std::marker::{Brand, PhantomData};

/// How many calls of a door had failed before it was put under its lock. Each call of a program picks it.
pub trait Since {
    ghost base: { ℕ };
}

impl Since for Brand {
    ghost base = { 0 };
}

/// What lies under the lock of a door: the door, how many of its calls have failed since, and whether one has answered that there are
/// no more connections. (lookd)
#[derive(Drop)]
pub struct Doorway<D: Door + Drop, B: Since> {
    pub(crate) door: D,
    pub(crate) failed: u64,
    pub(crate) ended: bool,
    base: PhantomData<B>,
    pub ghost counted: { min (B.base + failed) (2 ^ 64 - 1) ≤ D.faults door },
    pub ghost shut: { ended ≡ true → D.ended door ≡ true },
}

impl<D: Door + Drop, B: Since> Doorway<D, B> {
    /// A door, before its first call under the lock.
    pub fn new(door: D) -> Doorway<D, B>
        requires { B.base ≡ D.faults door }
        ensures { result.door ≡ door }
    {
        Doorway {
            door,
            failed: 0,
            ended: false,
            base: PhantomData,
        }
    }

    // The next connection, or nothing where there are no more. A call that fails is counted; past 2^64 - 1 of them there are no more.
    pub(crate) fn next(&mut self) -> Result<Option<D::L>, Failed> {
        if self.ended || self.failed == u64::MAX {
            return Ok(None);
        }
        match self.door.next() {
            Ok(Some(link)) => Ok(Some(link)),
            Ok(None) => {
                self.ended = true;
                Ok(None)
            }
            Err(fault) => {
                self.failed += 1;
                Err(fault)
            }
        }
    }

    /// The door, handed back.
    pub fn into_door(self) -> D
        ensures { result ≡ self.door }
    {
        self.door
    }
}
