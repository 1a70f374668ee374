use crate::halves::Halves;
use lk_val::{NoMemory, ValueRef};
use std::marker::Model;

// How many rows without keys a group has for a measure, how many of their values are not null, and the sum of those.
#[derive(Drop)]
pub(crate) struct Tally {
    rows: u64,
    values: u64,
    sum: Halves,
}

impl Model for Tally {
    ghost use Rattle.lk_agg.specs.Tallies.{Tallied};

    ghost Value = { Tallied };

    ghost use Rattle.std.specs.Prelude.{◌*◌, ◌^◌, ◌≤◌, ◌<◌, pos, neg_ℤ, ◌≤ℤ◌};

    ghost view = { λ t. record { rows = t.rows; values = t.values; sum = t.sum } };

    ghost invariant = { λ t. (t.values ≤ t.rows) × (neg_ℤ (pos (2 ^ 63 * t.rows)) ≤ℤ t.sum) × (t.sum ≤ℤ pos (2 ^ 63 * t.rows)) × (t.rows < 2 ^ 64) };
}

impl Tally {
    ghost use Rattle.std.specs.Prelude.{◌≡◌, OnOk, true};
    ghost use Rattle.lk_val.specs.ValueRefs.{value_of_ref};
    ghost use Rattle.lk_agg.specs.Tallies.{no_tally, with_amount};

    // No row.
    pub(crate) fn new() -> Tally
        ensures { result ≡ no_tally }
    {
        Tally {
            rows: 0,
            values: 0,
            sum: Halves::zero(),
        }
    }

    // Counts one more row with its value. No run has more rows than 64 bits count.
    pub(crate) fn add(&mut self, value: ValueRef<'_>) -> Result<(), NoMemory>
        ensures { OnOk result (self.new ≡ with_amount (value_of_ref value.entry) self.old) }
    {
        if self.rows == u64::MAX {
            return Err(NoMemory);
        }
        self.rows += 1;
        match value {
            ValueRef::Null => {}
            ValueRef::Num(num) => {
                self.values += 1;
                self.sum.add(num.0);
            }
            _ => self.values += 1,
        }
        Ok(())
    }

    // Whether no row was counted.
    pub(crate) fn is_empty(&self) -> bool
        ensures { result ≡ true → self.now ≡ no_tally }
    {
        self.rows == 0
    }

    pub(crate) fn rows(&self) -> u64
        ensures { result ≡ self.now.rows }
    {
        self.rows
    }

    pub(crate) fn values(&self) -> u64
        ensures { result ≡ self.now.values }
    {
        self.values
    }

    pub(crate) fn sum(&self) -> i128
        ensures { result ≡ self.now.sum }
    {
        self.sum.value()
    }
}
