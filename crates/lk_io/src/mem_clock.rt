ghost use Rattle.std.specs.Prelude.{◌≡◌, ◌<◌, Some, IfOk, length, map, slice_get};
ghost use Rattle.lk_io.specs.Moments.{later, within_years};
ghost use Rattle.lk_val.specs.Years.{IsMomentInYears};

use crate::clock::{Clock, FIRST_MOMENT, LAST_MOMENT};
use lk_val::{Items, NoMemory};
use std::alloc::Global;
use std::marker::Model;

/// A clock over a list of moments, of which the last one repeats.
#[derive(Drop)]
pub struct MemClock {
    moments: Vec<i64>,
    // Which of them comes next.
    next: usize,
}

impl Model for MemClock {
    ghost use Rattle.std.specs.Prelude.{ℤ, List, ◌<◌, drop, map, vec_len};
    ghost use Rattle.lk_io.specs.Moments.{within_years};

    ghost Value = { List ℤ };

    ghost view = { λ clock. map within_years (drop clock.next clock.moments.items) };

    ghost invariant = { λ clock. clock.next < vec_len clock.moments };
}

impl MemClock {
    /// A clock that tells these moments, each cut to the nearer end of the years 1 to 9999.
    pub fn new(moments: Items<i64>) -> MemClock
        requires { 0 < length moments }
        ensures { result ≡ map within_years moments }
    {
        MemClock {
            moments: moments.into_vec(),
            next: 0,
        }
    }
}

impl Clock for MemClock {
    ghost moments = { λ clock. Some clock };

    fn now(&mut self) -> i64
        ensures years { IsMomentInYears result }
        ensures first { slice_get self.old 0 ≡ Some result }
        ensures later { self.new ≡ later self.old }
    {
        let moment = self.moments[self.next];
        if self.next + 1 < self.moments.len() {
            self.next += 1;
        }
        moment.clamp(FIRST_MOMENT, LAST_MOMENT)
    }

    fn twin(&self, alloc: Global) -> Result<MemClock, NoMemory>
        ensures same { IfOk result (λ twin. twin ≡ self.now) }
    {
        let mut moments = Vec::new(alloc);
        moments.extend_from_slice(self.moments.as_slice())?;
        Ok(MemClock {
            moments,
            next: self.next,
        })
    }
}
