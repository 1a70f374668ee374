ghost use Rattle.std.specs.Prelude.{◌≡◌, ◌≤◌};
ghost use Rattle.lk_io.specs.Causes.{next_count};
ghost use Rattle.lk_io.specs.Memory.{no_calls, is_due, after_call};

use lk_val::Items;

/// The calls of an object in memory: those that are to fail, by their numbers from 0, and how many were
/// made and failed.
#[derive(Drop)]
pub struct Calls {
    pub failing: Items<u64>,
    pub made: u64,
    pub faults: u64,
}

impl Calls {
    /// No call yet.
    pub fn none(failing: Items<u64>) -> Calls
        ensures { result ≡ no_calls failing }
    {
        Calls {
            failing,
            made: 0,
            faults: 0,
        }
    }

    /// Counts a call; answers whether it is to fail, which it then counts as a fault.
    pub fn count(&mut self) -> bool
        ensures due { result ≡ is_due self.old }
        ensures counted { self.new ≡ after_call result self.old }
        ensures later { self.old.faults ≤ self.new.faults }
    {
        let fails = self.failing.as_slice().contains(&self.made);
        self.made = self.made.saturating_add(1);
        if fails {
            self.fail();
        }
        fails
    }

    /// Counts a fault of the call that was counted last.
    pub fn fail(&mut self)
        ensures counted { self.new ≡ record self.old { faults = next_count self.old.faults } }
        ensures later { self.old.faults ≤ self.new.faults }
    {
        self.faults = self.faults.saturating_add(1);
    }
}
