// The filters of a bound query.

ghost use Rattle.std.specs.Prelude.{◌≡◌, ◌++◌, ◌∷◌, [], IfOk, OnOk};
ghost use Rattle.lk_query.specs.Bindings.{each_placed, filters_at, on_dims, on_measures};
ghost use Rattle.lk_query.specs.Readings.{PickFilter};

use crate::rows::with_always;
use lk_filter::place;
use lk_types::{Explore, Filter, Pick};
use lk_val::{Items, NoMemory};
use std::alloc::Global;

/// The filters of a bound query, at their moment: the caller's, those on dimensions, and those on measures.
#[derive(Drop)]
pub struct Filters {
    pub access: Items<(u32, Filter)>,
    pub rows: Items<(u32, Filter)>,
    pub having: Items<(u32, Filter)>,
}

/// The filters that were read, at a moment, with the explore's defaults for the fields that the query leaves out.
/// (Looker, LookML reference: always_filter)
pub(crate) fn filters_at(
    alloc: Global,
    now: i64,
    x: &Explore,
    access: &[(Pick, Filter)],
    filters: &[(Pick, Filter)],
) -> Result<Filters, NoMemory>
    ensures { IfOk result (λ made. made ≡ filters_at now x.now access.now filters.now) }
{
    let rows = on_dims(alloc, now, filters)?;
    Ok(Filters {
        access: on_dims(alloc, now, access)?,
        rows: with_always(alloc, now, x, rows)?,
        having: on_measures(alloc, now, filters)?,
    })
}

// The filters on dimensions, at a moment.
fn on_dims(
    alloc: Global,
    now: i64,
    filters: &[(Pick, Filter)],
) -> Result<Items<(u32, Filter)>, NoMemory>
    ensures { IfOk result (λ made. made ≡ each_placed now (on_dims filters.now)) }
{
    let mut made = Items::new(alloc);
    for filter in filters {
        add_dim(alloc, now, filter, &mut made)?;
    }
    Ok(made)
}

fn add_dim(
    alloc: Global,
    now: i64,
    filter: &(Pick, Filter),
    made: &mut Items<(u32, Filter)>,
) -> Result<(), NoMemory>
    ensures { OnOk result (made.new ≡ made.old ++ each_placed now (on_dims (filter.now ∷ []))) }
{
    if let Pick::Dim(f) = filter.0 {
        made.push((f, place(alloc, &filter.1, now)?))?;
    }
    Ok(())
}

// The filters on measures, at a moment.
fn on_measures(
    alloc: Global,
    now: i64,
    filters: &[(Pick, Filter)],
) -> Result<Items<(u32, Filter)>, NoMemory>
    ensures { IfOk result (λ made. made ≡ each_placed now (on_measures filters.now)) }
{
    let mut made = Items::new(alloc);
    for filter in filters {
        add_measure(alloc, now, filter, &mut made)?;
    }
    Ok(made)
}

fn add_measure(
    alloc: Global,
    now: i64,
    filter: &(Pick, Filter),
    made: &mut Items<(u32, Filter)>,
) -> Result<(), NoMemory>
    ensures { OnOk result (made.new ≡ made.old ++ each_placed now (on_measures (filter.now ∷ []))) }
{
    if let Pick::Mea(m) = filter.0 {
        made.push((m, place(alloc, &filter.1, now)?))?;
    }
    Ok(())
}
