ghost use Rattle.std.specs.Prelude.{◌≡◌, None, IfOk, pos};
ghost use Rattle.lk_val.specs.Years.{IsMomentInYears};
ghost use Rattle.lk_io.specs.System.{clock_runtime, clock_last};

use crate::clock::{Clock, FIRST_MOMENT, LAST_MOMENT};
use lk_val::NoMemory;
use std::alloc::Global;
use std::rt;
use std::time::{SystemTime, UNIX_EPOCH};

/// The clock of the system. It tells nothing, and may go back where the system's does.
#[derive(Drop)]
pub struct RealClock<R> {
    rt: R,
    // The moment that it answered last, and 0 before any.
    last: i64,
}

impl<R> RealClock<R> {
    /// The clock of this system.
    pub fn new(rt: R) -> RealClock<R>
        ensures runtime { clock_runtime result ≡ rt }
        ensures last { clock_last result ≡ pos 0 }
    {
        RealClock { rt, last: 0 }
    }
}

// The system's time in seconds from 1970, where it gives one.
fn seconds_now<R: rt::Clock>(rt: &R) -> Option<i64> {
    let since_1970 = SystemTime::now(rt).ok()?.duration_since(UNIX_EPOCH).ok()?;
    Some(i64::try_from(since_1970.as_secs()).unwrap_or(i64::MAX))
}

impl<R: rt::Clock + Clone + Drop + Send> Clock for RealClock<R> {
    ghost moments = { λ _. None };

    /// The system's time, cut to the nearer end of the years 1 to 9999. Where the system gives none, the
    /// last moment again, and 0 before any.
    fn now(&mut self) -> i64
        ensures years { IsMomentInYears result }

        ensures last { clock_last self.new ≡ result }
    {
        let moment = seconds_now(&self.rt).unwrap_or(self.last);
        self.last = moment.clamp(FIRST_MOMENT, LAST_MOMENT);
        self.last
    }

    fn twin(&self, _: Global) -> Result<RealClock<R>, NoMemory>
        ensures last { IfOk result (λ twin. clock_last twin ≡ clock_last self.now) }
    {
        Ok(RealClock {
            rt: self.rt.clone()?,
            last: self.last,
        })
    }
}
