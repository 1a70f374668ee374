// Whether an aggregate table fits a query.

ghost use Rattle.std.specs.Prelude.{◌≡◌, length, nat_lt, true};
ghost use Rattle.std.specs.List.{list_all};
ghost use Rattle.lk_types.specs.Expressions.{has_number};
ghost use Rattle.lk_semantics.specs.Derived.{explore_at};
ghost use Rattle.lk_semantics.specs.Resolved.{IsInModel, IsResolved};
ghost use Rattle.lk_semantics.specs.Rollups as rollups;
ghost use Rattle.lk_semantics.specs.Rollups.{rollup_at};
ghost use Rattle.lk_semantics.specs.Rows.{field_at};
ghost use Rattle.lk_route.specs.Fits.{are_dims, are_had, do_regroup, does_regroup, fields_fit, fits_by, groups_fit, has_join, is_asked_or_keeps, is_filter_among, is_had, is_picked, joins_fit, passes_dim, passes_filtered, passes_measure};
ghost use Rattle.lk_route.specs.Ready.{IsReadyFor, ready_rollup};

use crate::ready::{Ready, ReadyJoin, ReadyMeasure, ReadyRollup};
use crate::timeframe::is_had_from;
use lk_filter::same;
use lk_rollup::{explore_of, rollup_of};
use lk_types::{Bound, Explore, Field, Filter, Model, Pick, Rollup, Shape};

impl Ready {
    /// Whether the aggregate table of a number fits a query of the model, so that the query may be answered from its rows: `r` is its
    /// place among those that the query's explore declares. It takes no memory. (Looker, LookML reference: aggregate_table; lookd)
    pub fn fits(&self, m: &Model, b: &Bound, r: u32) -> bool
        requires model { IsResolved m.now }
        requires ready { IsReadyFor m.now self.now }
        requires query { IsInModel m.now b.now }
        requires rollup { nat_lt r (length (explore_at m.now b.now.explore).rollups) ≡ true }
        ensures { result ≡ rollups.fits (explore_at m.now b.now.explore) (rollup_at (explore_at m.now b.now.explore) r) b.now }
    {
        let x = explore_of(m, b.explore);
        let ready = &self.rollups.as_slice()[b.explore as usize].as_slice()[r as usize];
        fits_by(x, rollup_of(x, r), ready, b)
    }
}

fn fits_by(x: &Explore, r: &Rollup, ready: &ReadyRollup, b: &Bound) -> bool
    ensures { result ≡ fits_by x.now r.now ready.now b.now }
{
    joins_fit(ready.joins.as_slice(), b.joins.as_slice())
        && fields_fit(x, r, b)
        && filters_fit(r, b)
        && are_had(ready.measures.as_slice(), b)
        && groups_fit(r, ready, b)
}

// Whether the query's joins are among the aggregate table's, and each further one leaves the rows before it as they were.
#[tactic(auto, unfolding(crate::specs::Fits::joins_fit))]
pub(crate) fn joins_fit(known: &[ReadyJoin], joins: &[u32]) -> bool
    ensures { result ≡ joins_fit known.now joins.now }
{
    has_joins(known, joins) && are_asked_or_keep(joins, known)
}

fn has_joins(known: &[ReadyJoin], joins: &[u32]) -> bool
    ensures { result ≡ list_all (has_join known.now) joins.now }
{
    joins.iter().all(|join| has_join(known, *join))
}

fn has_join(known: &[ReadyJoin], join: u32) -> bool
    ensures { result ≡ has_join known.now join }
{
    known.iter().any(|other| join == other.join)
}

fn are_asked_or_keep(joins: &[u32], known: &[ReadyJoin]) -> bool
    ensures { result ≡ list_all (is_asked_or_keeps joins.now) known.now }
{
    known.iter().all(|join| is_asked_or_keeps(joins, *join))
}

fn is_asked_or_keeps(joins: &[u32], known: ReadyJoin) -> bool
    ensures { result ≡ is_asked_or_keeps joins.now known }
{
    joins.contains(&known.join) || known.keeps_rows
}

// Whether the aggregate table has each field that the query groups or filters by.
#[tactic(auto, unfolding(crate::specs::Fits::fields_fit))]
pub(crate) fn fields_fit(x: &Explore, r: &Rollup, b: &Bound) -> bool
    ensures { result ≡ fields_fit x.now r.now b.now }
{
    has_dims(x, r, b.picks.as_slice())
        && has_filtered(x, r, b.rows.as_slice())
        && has_filtered(x, r, b.access.as_slice())
}

fn has_dims(x: &Explore, r: &Rollup, picks: &[Pick]) -> bool
    ensures { result ≡ list_all (passes_dim (rollups.has_field x.now r.now)) picks.now }
{
    picks.iter().all(|pick| match pick {
        Pick::Dim(field) => has_field(x, r, *field),
        Pick::Mea(_) => true,
    })
}

fn has_filtered(x: &Explore, r: &Rollup, filters: &[(u32, Filter)]) -> bool
    ensures { result ≡ list_all (passes_filtered (rollups.has_field x.now r.now)) filters.now }
{
    filters.iter().all(|filter| has_field(x, r, filter.0))
}

// Whether a dimension of the aggregate table is the field, or a finer timeframe of its view's group.
fn has_field(x: &Explore, r: &Rollup, field: u32) -> bool
    ensures { result ≡ rollups.has_field x.now r.now field }
{
    r.dims
        .as_slice()
        .iter()
        .any(|dim| *dim == field || is_had_of(x, field, *dim))
}

// Whether a field is a timeframe that is had from another field of its view's group.
fn is_had_of(x: &Explore, field: u32, dim: u32) -> bool
    ensures { result ≡ rollups.is_had_of (field_at x.now field) (field_at x.now dim) }
{
    let fields = x.fields.as_slice();
    match (fields.get(field as usize), fields.get(dim as usize)) {
        (Some(field), Some(dim)) => is_had_of_field(field, dim),
        // A field that is not there is no timeframe.
        _ => false,
    }
}

fn is_had_of_field(field: &Field, dim: &Field) -> bool
    ensures { result ≡ rollups.is_had_of field.now dim.now }
{
    field.part == dim.part && is_coarser(&field.shape, &dim.shape)
}

fn is_coarser(coarse: &Shape, fine: &Shape) -> bool
    ensures { result ≡ rollups.is_coarser coarse.now fine.now }
{
    match (coarse, fine) {
        (Shape::Frame(group, coarse), Shape::Frame(other, fine)) => {
            group == other && is_had_from(*coarse, *fine)
        }
        _ => false,
    }
}

// Whether the query has each of an aggregate table's filters: on the same field, with the same tests.
pub(crate) fn filters_fit(r: &Rollup, b: &Bound) -> bool
    ensures { result ≡ rollups.filters_fit r.now b.now }
{
    let asked = b.rows.as_slice();
    r.filters
        .as_slice()
        .iter()
        .all(|filter| is_filter_among(filter, asked))
}

fn is_filter_among(filter: &(u32, Filter), asked: &[(u32, Filter)]) -> bool
    ensures { result ≡ is_filter_among asked.now filter.now }
{
    asked
        .iter()
        .any(|other| filter.0 == other.0 && same(&filter.1, &other.1))
}

// Whether the aggregate table has all that the query's measures are put together from.
#[tactic(auto, unfolding(crate::specs::Fits::are_had))]
pub(crate) fn are_had(ready: &[ReadyMeasure], b: &Bound) -> bool
    ensures { result ≡ are_had ready.now b.now }
{
    are_picks_had(ready, b.picks.as_slice()) && are_filtered_had(ready, b.having.as_slice())
}

fn are_picks_had(ready: &[ReadyMeasure], picks: &[Pick]) -> bool
    ensures { result ≡ list_all (passes_measure (is_had ready.now)) picks.now }
{
    picks.iter().all(|pick| match pick {
        Pick::Dim(_) => true,
        Pick::Mea(measure) => is_had(ready, *measure),
    })
}

fn are_filtered_had(ready: &[ReadyMeasure], filters: &[(u32, Filter)]) -> bool
    ensures { result ≡ list_all (passes_filtered (is_had ready.now)) filters.now }
{
    filters.iter().all(|filter| is_had(ready, filter.0))
}

fn is_had(ready: &[ReadyMeasure], measure: u32) -> bool
    ensures { result ≡ is_had ready.now measure }
{
    match ready.get(measure as usize) {
        Some(ready) => ready.is_had,
        None => false,
    }
}

// Whether the query's groups are the aggregate table's own, or all of its measures may be put together from them.
#[tactic(auto, unfolding(crate::specs::Fits::groups_fit))]
pub(crate) fn groups_fit(r: &Rollup, ready: &ReadyRollup, b: &Bound) -> bool
    ensures { result ≡ groups_fit r.now ready.now b.now }
{
    are_dims(b.picks.as_slice(), r.dims.as_slice()) || do_regroup(ready.measures.as_slice(), b)
}

#[tactic(auto, unfolding(crate::specs::Fits::do_regroup))]
fn do_regroup(ready: &[ReadyMeasure], b: &Bound) -> bool
    ensures { result ≡ do_regroup ready.now b.now }
{
    do_picks_regroup(ready, b.picks.as_slice()) && do_filtered_regroup(ready, b.having.as_slice())
}

fn do_picks_regroup(ready: &[ReadyMeasure], picks: &[Pick]) -> bool
    ensures { result ≡ list_all (passes_measure (does_regroup ready.now)) picks.now }
{
    picks.iter().all(|pick| match pick {
        Pick::Dim(_) => true,
        Pick::Mea(measure) => does_regroup(ready, *measure),
    })
}

fn do_filtered_regroup(ready: &[ReadyMeasure], filters: &[(u32, Filter)]) -> bool
    ensures { result ≡ list_all (passes_filtered (does_regroup ready.now)) filters.now }
{
    filters.iter().all(|filter| does_regroup(ready, filter.0))
}

fn does_regroup(ready: &[ReadyMeasure], measure: u32) -> bool
    ensures { result ≡ does_regroup ready.now measure }
{
    match ready.get(measure as usize) {
        Some(ready) => ready.regroups,
        None => false,
    }
}

// Whether the picked dimensions are these, in any order.
#[tactic(auto, unfolding(crate::specs::Fits::are_dims))]
fn are_dims(picks: &[Pick], dims: &[u32]) -> bool
    ensures { result ≡ are_dims picks.now dims.now }
{
    are_among(picks, dims) && are_picked(dims, picks)
}

fn are_among(picks: &[Pick], dims: &[u32]) -> bool
    ensures { result ≡ list_all (passes_dim (λ f. has_number f dims.now)) picks.now }
{
    picks.iter().all(|pick| match pick {
        Pick::Dim(field) => dims.contains(field),
        Pick::Mea(_) => true,
    })
}

fn are_picked(dims: &[u32], picks: &[Pick]) -> bool
    ensures { result ≡ list_all (is_picked picks.now) dims.now }
{
    dims.iter().all(|dim| is_picked(picks, *dim))
}

fn is_picked(picks: &[Pick], dim: u32) -> bool
    ensures { result ≡ is_picked picks.now dim }
{
    picks.iter().any(|pick| match pick {
        Pick::Dim(field) => dim == *field,
        Pick::Mea(_) => false,
    })
}
