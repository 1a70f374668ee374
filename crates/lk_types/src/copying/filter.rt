// Copies of filters.

use crate::filter::{Filter, Test};
use lk_val::{Copied, NoMemory};
use std::alloc::Global;

impl Copied for Filter {
    fn copied(&self, alloc: Global) -> Result<Filter, NoMemory> {
        Ok(Filter {
            include: self.include.copy(alloc)?,
            exclude: self.exclude.copy(alloc)?,
            relative: self.relative,
        })
    }
}

impl Copied for Test {
    fn copied(&self, alloc: Global) -> Result<Test, NoMemory> {
        Ok(match self {
            Test::Null => Test::Null,
            Test::Empty => Test::Empty,
            Test::Like(pieces) => Test::Like(pieces.copy_plain(alloc)?),
            Test::Is(num) => Test::Is(*num),
            Test::Compare(comparisons) => Test::Compare(comparisons.copy_plain(alloc)?),
            Test::To(low, high) => Test::To(*low, *high),
            Test::Range(low, high) => Test::Range(*low, *high),
            Test::In(days) => Test::In(*days),
            Test::Before(days) => Test::Before(*days),
            Test::After(days) => Test::After(*days),
            Test::FromTo(first, last) => Test::FromTo(*first, *last),
            Test::Today => Test::Today,
            Test::Yesterday => Test::Yesterday,
            Test::This(period) => Test::This(*period),
            Test::Last(period) => Test::Last(*period),
            Test::Recent(count, period) => Test::Recent(*count, *period),
            Test::Ago(count, period) => Test::Ago(*count, *period),
            Test::Truth(truth) => Test::Truth(*truth),
        })
    }
}
