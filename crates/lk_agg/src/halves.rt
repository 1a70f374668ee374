use std::marker::Model;

// What the high half counts in: one more than the low half holds.
const CARRY: i128 = 0x1_0000_0000_0000_0000;

// A number of 128 bits in two halves: a type that holds an `i128` takes a multiple of 16 bytes, and a column would take
// 64. Clauses see it as the number.
#[derive(Drop)]
pub(crate) struct Halves {
    high: i64,
    low: u64,
}

impl Model for Halves {
    ghost use Rattle.std.specs.Prelude.{ℤ, pos, ◌^◌, ◌+ℤ◌, ◌*ℤ◌};

    ghost Value = { ℤ };

    ghost view = { λ n. (n.high *ℤ pos (2 ^ 64)) +ℤ pos n.low };
}

impl Halves {
    ghost use Rattle.std.specs.Prelude.{◌≡◌, pos, neg_ℤ, ◌^◌, ◌+ℤ◌, ◌≤ℤ◌, ◌<ℤ◌};

    pub(crate) fn zero() -> Halves
        ensures { result ≡ pos 0 }
    {
        Halves { high: 0, low: 0 }
    }

    // Adds a number, where the sum has a place in 128 bits.
    pub(crate) fn add(&mut self, number: i64)
        requires least { neg_ℤ (pos (2 ^ 127)) ≤ℤ (self.old +ℤ number) }
        requires most { (self.old +ℤ number) <ℤ pos (2 ^ 127) }
        ensures { self.new ≡ self.old +ℤ number }
    {
        let low = i128::from(self.low) + i128::from(number);
        if low < 0 {
            self.high -= 1;
            self.low = (low + CARRY) as u64;
        } else if low < CARRY {
            self.low = low as u64;
        } else {
            self.high += 1;
            self.low = (low - CARRY) as u64;
        }
    }

    pub(crate) fn value(&self) -> i128
        ensures { result ≡ self.now }
    {
        i128::from(self.high) * CARRY + i128::from(self.low)
    }
}
