// By which point an aggregate table does not fit a query.

ghost use Rattle.std.specs.Prelude.{◌≡◌, length, nat_lt, not, true};
ghost use Rattle.std.specs.Option.{is_some};
ghost use Rattle.lk_semantics.specs.Derived.{explore_at};
ghost use Rattle.lk_semantics.specs.Resolved.{IsInModel, IsResolved};
ghost use Rattle.lk_semantics.specs.Rollups as rollups;
ghost use Rattle.lk_semantics.specs.Rollups.{filters_fit, rollup_at};
ghost use Rattle.lk_route.specs.Fits.{are_had, fields_fit, groups_fit, joins_fit};
ghost use Rattle.lk_route.specs.Ready.{IsReadyFor};
ghost use Rattle.lk_route.specs.Unmet.{first_of, first_unmet};

use crate::fitting::{are_had, fields_fit, filters_fit, groups_fit, joins_fit};
use crate::ready::{Ready, ReadyRollup};
use lk_rollup::{explore_of, rollup_of};
use lk_types::{Bound, Explore, Model, Rollup};

/// What has to hold of an aggregate table for it to fit a query, in the order in which `Ready::first_unmet` looks.
#[derive(Clone, Copy, Debug, PartialEq, Eq)]
pub enum Point {
    /// It has the query's joins, and each further one leaves the rows before it as they were.
    Joins,
    /// It has each field that the query groups or filters by, or a finer timeframe of its view's group.
    Fields,
    /// The query has each of its filters.
    Filters,
    /// It has all that the query's measures are put together from.
    Measures,
    /// Its groups are the query's, or all of the query's measures may be put together from them.
    Groups,
}

impl Ready {
    /// The first point by which the aggregate table of a number does not fit a query of the model, none where it fits: `r` is its place
    /// among those that the query's explore declares. It takes no memory. (lookd)
    pub fn first_unmet(&self, m: &Model, b: &Bound, r: u32) -> Option<Point>
        requires model { IsResolved m.now }
        requires ready { IsReadyFor m.now self.now }
        requires query { IsInModel m.now b.now }
        requires rollup { nat_lt r (length (explore_at m.now b.now.explore).rollups) ≡ true }
        ensures first { result ≡ first_unmet (explore_at m.now b.now.explore) (rollup_at (explore_at m.now b.now.explore) r) b.now }
        ensures fits { is_some result ≡ not (rollups.fits (explore_at m.now b.now.explore) (rollup_at (explore_at m.now b.now.explore) r) b.now) }
    {
        let x = explore_of(m, b.explore);
        let ready = &self.rollups.as_slice()[b.explore as usize].as_slice()[r as usize];
        first_unmet_by(x, rollup_of(x, r), ready, b)
    }
}

fn first_unmet_by(x: &Explore, r: &Rollup, ready: &ReadyRollup, b: &Bound) -> Option<Point>
    ensures { result ≡ first_of (joins_fit ready.now.joins b.now.joins) (fields_fit x.now r.now b.now) (filters_fit r.now b.now)
        (are_had ready.now.measures b.now) (groups_fit r.now ready.now b.now) }
{
    if !joins_fit(ready.joins.as_slice(), b.joins.as_slice()) {
        Some(Point::Joins)
    } else if !fields_fit(x, r, b) {
        Some(Point::Fields)
    } else if !filters_fit(r, b) {
        Some(Point::Filters)
    } else if !are_had(ready.measures.as_slice(), b) {
        Some(Point::Measures)
    } else if !groups_fit(r, ready, b) {
        Some(Point::Groups)
    } else {
        None
    }
}
