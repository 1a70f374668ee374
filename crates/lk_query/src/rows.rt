// The filters on dimensions, with the explore's defaults, by the names of their fields.

ghost use Rattle.std.specs.Prelude.{◌≡◌, ◌≤◌, ◌++◌, ◌∷◌, [], IfOk, OnOk, length, nat_eq};
ghost use Rattle.std.specs.List.{list_any, position_or_len};
ghost use Rattle.lk_semantics.specs.Derived.{by_name, put_by_name};
ghost use Rattle.lk_query.specs.Bindings.{each_placed};
ghost use Rattle.lk_query.specs.Rows.{is_first_field, left_out, stands_first, with_always_at};

use crate::names::field_name;
use lk_filter::place;
use lk_types::{Explore, Filter};
use lk_val::{Items, NoMemory};
use std::alloc::Global;

/// The filters, and the explore's defaults for the fields that they leave out, by their fields' names. Of the defaults the
/// relative dates stand for the days that they name at `now`, in seconds from 1970-01-01 00:00:00 UTC; the filters stay as
/// they are. (Looker, LookML reference: always_filter)
pub fn with_always(
    alloc: Global,
    now: i64,
    x: &Explore,
    filters: Items<(u32, Filter)>,
) -> Result<Items<(u32, Filter)>, NoMemory>
    ensures { IfOk result (λ rows. rows ≡ with_always_at now x.now filters) }
{
    let defaults = left_out(alloc, now, x, filters.as_slice())?;
    let all = joined(filters, defaults)?;
    by_name(alloc, x, all)
}

// The defaults of the fields that the filters leave out, at a moment.
fn left_out(
    alloc: Global,
    now: i64,
    x: &Explore,
    filters: &[(u32, Filter)],
) -> Result<Items<(u32, Filter)>, NoMemory>
    ensures { IfOk result (λ defaults. defaults
        ≡ each_placed now (left_out filters.now x.now.always)) }
{
    let mut defaults = Items::new(alloc);
    for filter in x.always.as_slice() {
        add_left_out(alloc, now, filters, filter, &mut defaults)?;
    }
    Ok(defaults)
}

// Adds a default, unless some filter is on its field.
fn add_left_out(
    alloc: Global,
    now: i64,
    filters: &[(u32, Filter)],
    filter: &(u32, Filter),
    defaults: &mut Items<(u32, Filter)>,
) -> Result<(), NoMemory>
    ensures { OnOk result (defaults.new
        ≡ defaults.old ++ each_placed now (left_out filters.now (filter.now ∷ []))) }
{
    if !has_filter(filters, filter.0) {
        defaults.push((filter.0, place(alloc, &filter.1, now)?))?;
    }
    Ok(())
}

fn has_filter(filters: &[(u32, Filter)], field: u32) -> bool
    ensures { result ≡ list_any (λ f. nat_eq field f.0) filters.now }
{
    filters.iter().any(|filter| field == filter.0)
}

fn joined(
    filters: Items<(u32, Filter)>,
    more: Items<(u32, Filter)>,
) -> Result<Vec<(u32, Filter)>, NoMemory>
    ensures { IfOk result (λ all. all.items ≡ filters ++ more) }
{
    let mut all = filters.into_vec();
    let mut more = more.into_vec();
    all.append(&mut more)?;
    Ok(all)
}

// The filters by the names of their fields; those on one field stay in their order.
#[tactic(auto, using(crate::proofs::RowLaws::all_put, crate::proofs::RowLaws::last_put))]
fn by_name(
    alloc: Global,
    x: &Explore,
    filters: Vec<(u32, Filter)>,
) -> Result<Items<(u32, Filter)>, NoMemory>
    ensures { IfOk result (λ sorted. sorted ≡ by_name x.now filters.items) }
{
    let mut filters = filters;
    let mut sorted = Vec::new(alloc);
    while let Some(filter) = filters.pop() {
        put_by_name(x, &mut sorted, filter)?;
    }
    Ok(Items::from_vec(sorted))
}

fn put_by_name(
    x: &Explore,
    sorted: &mut Vec<(u32, Filter)>,
    filter: (u32, Filter),
) -> Result<(), NoMemory>
    ensures { OnOk result (sorted.new.items ≡ put_by_name x.now filter sorted.old.items) }
{
    let place = place_of(x, sorted.as_slice(), filter.0);
    sorted.insert(place, filter)?;
    Ok(())
}

// The place of the first filter that one on the field stands in front of, and else the end.
fn place_of(x: &Explore, sorted: &[(u32, Filter)], field: u32) -> usize
    ensures first { result ≡ position_or_len (stands_first x.now field) sorted.now }
    ensures within { result ≤ length sorted.now }
{
    for place in 0..sorted.len() {
        if stands_first(x, field, sorted[place].0) {
            return place;
        }
    }
    sorted.len()
}

fn stands_first(x: &Explore, field: u32, other: u32) -> bool
    ensures { result ≡ is_first_field x.now field other }
{
    field_name(x, field) <= field_name(x, other)
}
