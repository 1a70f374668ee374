// Which state answers a query, and from what.

ghost use Rattle.std.specs.Prelude.{◌≡◌, length, nat_lt, slice_index, true};
ghost use Rattle.lk_types.specs.declared.answer.RouteFrom.TheVariants as from;
ghost use Rattle.lk_semantics.specs.Derived.{explore_at};
ghost use Rattle.lk_semantics.specs.Resolved.{IsInModel, IsResolved};
ghost use Rattle.lk_semantics.specs.Rollups.{best_rollup, better, fitting, rollup_at, route_of};
ghost use Rattle.lk_route.specs.Ready.{IsReadyFor};
ghost use Rattle.lk_route.specs.Routes.{best_with, built_numbers, chosen, route_to};

use crate::ready::Ready;
use lk_fill::first_reached;
use lk_rollup::explore_of;
use lk_trigger::Build;
use lk_types::{Bound, Explore, Model, Route, RouteFrom};

impl Ready {
    /// Which state answers a query of the model, and from what: unless it is to be fresh, the build of the aggregate table that fits it
    /// and has the fewest dimensions, and of several the first declared; else the build of the persisted derived table that it reads;
    /// else the current tables. `builds` are the datagroups' builds, by number, and `number` is that of the current tables. No row
    /// plays a part, and it takes no memory. (Looker, LookML reference: aggregate_table; lookd)
    pub fn route(&self, m: &Model, builds: &[Build], number: u64, b: &Bound) -> Route
        requires model { IsResolved m.now }
        requires ready { IsReadyFor m.now self.now }
        requires query { IsInModel m.now b.now }
        ensures { result ≡ route_of m.now (built_numbers builds.now) number b.now }
    {
        let x = explore_of(m, b.explore);
        match self.chosen(m, b) {
            Some(r) => route_to_rollup(x, builds, r),
            None => {
                let group = first_reached(self.groups.as_slice(), x, b.joins.as_slice());
                route_to(builds, number, group)
            }
        }
    }

    /// The aggregate table from which a query of the model is answered: none where it is to be fresh, and else of those that fit it the
    /// one with the fewest dimensions, and of several the first declared. It takes no memory. (Looker, LookML reference:
    /// aggregate_table; lookd)
    pub fn chosen(&self, m: &Model, b: &Bound) -> Option<u32>
        requires model { IsResolved m.now }
        requires ready { IsReadyFor m.now self.now }
        requires query { IsInModel m.now b.now }
        ensures { result ≡ chosen (explore_at m.now b.now.explore) b.now }
    {
        if b.fresh {
            return None;
        }
        self.best(m, b)
    }

    // Of the aggregate tables that fit a query the one with the fewest dimensions, and of several the first declared.
    fn best(&self, m: &Model, b: &Bound) -> Option<u32>
        requires model { IsResolved m.now }
        requires ready { IsReadyFor m.now self.now }
        requires query { IsInModel m.now b.now }
        ensures { result ≡ best_rollup (explore_at m.now b.now.explore) (fitting (explore_at m.now b.now.explore) b.now) }
    {
        let mut best = None;
        // From the end, so that of two with as many dimensions the first is left.
        for r in (0..explore_of(m, b.explore).rollups.len()).rev() {
            best = self.best_with(m, b, r as u32, best);
        }
        best
    }

    // The aggregate table of a number, if it fits and is better than the best of the later ones.
    fn best_with(&self, m: &Model, b: &Bound, r: u32, best: Option<u32>) -> Option<u32>
        requires model { IsResolved m.now }
        requires ready { IsReadyFor m.now self.now }
        requires query { IsInModel m.now b.now }
        requires rollup { nat_lt r (length (explore_at m.now b.now.explore).rollups) ≡ true }
        ensures { result ≡ best_with (explore_at m.now b.now.explore) b.now r best }
    {
        if !self.fits(m, b, r) {
            return best;
        }
        better(explore_of(m, b.explore), r, best)
    }
}

// Of two aggregate tables the one with fewer dimensions, and else the first.
fn better(x: &Explore, r: u32, later: Option<u32>) -> Option<u32>
    ensures { result ≡ better x.now r later }
{
    match later {
        None => Some(r),
        Some(other) if dims_of(x, r) > dims_of(x, other) => Some(other),
        Some(_) => Some(r),
    }
}

// How many dimensions an aggregate table has.
fn dims_of(x: &Explore, r: u32) -> usize
    ensures { result ≡ length (rollup_at x.now r).dims }
{
    match x.rollups.as_slice().get(r as usize) {
        Some(rollup) => rollup.dims.len(),
        None => 0,
    }
}

fn route_to_rollup(x: &Explore, builds: &[Build], r: u32) -> Route
    ensures { result ≡ record { number = slice_index (built_numbers builds.now) (rollup_at x.now r).datagroup; from = from.Rollup r } }
{
    Route {
        number: build_of(builds, datagroup_of(x, r)),
        from: RouteFrom::Rollup(r),
    }
}

// The datagroup that rebuilds an aggregate table.
fn datagroup_of(x: &Explore, r: u32) -> u32
    ensures { result ≡ (rollup_at x.now r).datagroup }
{
    match x.rollups.as_slice().get(r as usize) {
        Some(rollup) => rollup.datagroup,
        None => 0,
    }
}

// To the build of a datagroup, if there is one, and else to the current tables.
fn route_to(builds: &[Build], number: u64, group: Option<u32>) -> Route
    ensures { result ≡ route_to (built_numbers builds.now) number group }
{
    match group {
        Some(group) => Route {
            number: build_of(builds, group),
            from: RouteFrom::Build(group),
        },
        None => Route {
            number,
            from: RouteFrom::Current,
        },
    }
}

// The number of the state at which a datagroup was built, and 0 where it was not.
fn build_of(builds: &[Build], group: u32) -> u64
    ensures { result ≡ slice_index (built_numbers builds.now) group }
{
    match builds.get(group as usize) {
        Some(build) => build.number,
        None => 0,
    }
}
