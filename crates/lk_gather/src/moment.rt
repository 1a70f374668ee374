ghost use Rattle.std.specs.Prelude.{◌≡◌, IfOk};
ghost use Rattle.std.specs.List.{list_any};
ghost use Rattle.lk_types.specs.Filters.{is_placed, is_relative};
ghost use Rattle.lk_gather.specs.Moments.{IsAtMoment, filter_of};

use lk_filter::{place, placing_leaves_no_relative_date};
use lk_types::{Filter, Test};
use lk_val::NoMemory;
use std::alloc::Global;

// A filter at a moment: one of the model that has no relative date, or a copy with its relative dates placed.
#[derive(Drop)]
pub(crate) enum MomentFilter<'a> {
    Kept(&'a Filter),
    Placed(Filter),
}

impl<'a> MomentFilter<'a> {
    /// The filter at a moment, in seconds from 1970-01-01 00:00:00 UTC. One without relative dates is not copied.
    pub(crate) fn at(
        alloc: Global,
        filter: &'a Filter,
        now: i64,
    ) -> Result<MomentFilter<'a>, NoMemory>
        ensures { IfOk result (IsAtMoment now filter.now) }
    {
        placing_leaves_no_relative_date();
        if is_placed(filter) {
            Ok(MomentFilter::Kept(filter))
        } else {
            Ok(MomentFilter::Placed(place(alloc, filter, now)?))
        }
    }

    pub(crate) fn filter(&self) -> &Filter
        ensures { result.now ≡ filter_of self.now }
    {
        match self {
            MomentFilter::Kept(filter) => filter,
            MomentFilter::Placed(filter) => filter,
        }
    }
}

fn is_placed(filter: &Filter) -> bool
    ensures { result ≡ is_placed filter.now }
{
    !has_relative(filter.include.as_slice()) && !has_relative(filter.exclude.as_slice())
}

fn has_relative(tests: &[Test]) -> bool
    ensures { result ≡ list_any is_relative tests.now }
{
    tests.iter().any(|test| is_relative(test))
}

fn is_relative(test: &Test) -> bool
    ensures { result ≡ is_relative test.now }
{
    match test {
        Test::Today
        | Test::Yesterday
        | Test::This(_)
        | Test::Last(_)
        | Test::Recent(..)
        | Test::Ago(..) => true,
        _ => false,
    }
}
