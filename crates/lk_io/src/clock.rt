ghost use Rattle.std.specs.Prelude.{◌≡◌, ℤ, List, Option, Some, IfOk, IfSome, slice_get};
ghost use Rattle.std.specs.Option.{option_map};
ghost use Rattle.lk_io.specs.Moments.{later};
ghost use Rattle.lk_val.specs.Years.{IsMomentInYears};

use lk_val::NoMemory;
use std::alloc::Global;

/// The first second of the year 1, counted from 1970-01-01 00:00:00 UTC.
pub const FIRST_MOMENT: i64 = -62_135_596_800;

/// The last second of the year 9999, counted from 1970-01-01 00:00:00 UTC.
pub const LAST_MOMENT: i64 = 253_402_300_799;

/// A clock of the years 1 to 9999. An object may tell the moments to come.
pub trait Clock: Send + Sized {
    /// The moments to come, where the object tells; the last one repeats.
    ghost moments: { Self → Option (List ℤ) };

    /// The next moment, in seconds from 1970-01-01 00:00:00 UTC.
    fn now(&mut self) -> i64
        ensures years { IsMomentInYears result }
        ensures first { IfSome (moments self.old) (λ told. slice_get told 0 ≡ Some result) }
        ensures later { moments self.new ≡ option_map later (moments self.old) };

    /// A clock with the same moments to come.
    fn twin(&self, alloc: Global) -> Result<Self, NoMemory>
        ensures same { IfOk result (λ twin. moments twin ≡ moments self.now) };
}
