ghost use Rattle.std.specs.Prelude.{◌≡◌};
ghost use Rattle.lk_ledger.specs.Saved.{are_batches_of, are_rising, are_saves};

use crate::kept::KeptId;

/// Whether saves can have left these loads and the batches of these numbers: the loads have rising numbers from 1 to the last
/// save's, and the batches some of these. (lookd)
pub fn are_saves(last: u64, ids: &[KeptId], numbers: &[u64]) -> bool
    ensures { result ≡ are_saves last ids.now numbers.now }
{
    are_rising(last, ids) && are_batches_of(ids, numbers)
}

fn are_rising(last: u64, ids: &[KeptId]) -> bool
    ensures { result ≡ are_rising 0 last ids.now }
{
    let mut before = 0;
    for id in ids {
        if id.number <= before || id.number > last {
            return false;
        }
        before = id.number;
    }
    true
}

// Goes over both lists at once: a number is left until its load is met.
fn are_batches_of(ids: &[KeptId], numbers: &[u64]) -> bool
    ensures { result ≡ are_batches_of ids.now numbers.now }
{
    let mut left = numbers;
    for id in ids {
        let [first, rest @ ..] = left else {
            return false;
        };
        if *first == id.number {
            left = rest;
        }
    }
    left.is_empty()
}
