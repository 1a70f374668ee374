// The filter texts of a query.

ghost use Rattle.std.specs.Prelude.{◌≡◌, ◌≤◌, IfOk, length, map};
ghost use Rattle.std.specs.List.{position_or_len};
ghost use Rattle.lk_val.specs.Memory.{IsUnlessMemory};
ghost use Rattle.lk_body.specs.Faults.{is_no_memory};
ghost use Rattle.lk_query.specs.Refusals.{each_found};
ghost use Rattle.lk_query.specs.Names.{by_name, filter_kind_of, filter_on, filters_of, goes_before, named_filter, put_in, unknown_filter};

use crate::field_names::FieldNames;
use crate::names::{pick_kind, pick_named};
use lk_body::QueryFault;
use lk_filter::FilterKind;
use lk_types::{Explore, Kind, Pick};
use lk_val::{Items, NoMemory, Text};
use std::alloc::Global;

/// A filter's text on a dimension or a measure, the kind of filter that it is to be, and the name that it goes by.
#[derive(Drop)]
pub struct FilterText {
    pub on: Pick,
    pub kind: FilterKind,
    pub name: Text,
    pub text: Text,
}

/// The filters by the bytes of their names, or Q4 for the first name that is no field of the explore.
pub(crate) fn filters_of(
    alloc: Global,
    x: &Explore,
    filters: &[(Text, Text)],
) -> Result<Items<FilterText>, QueryFault>
    ensures { IsUnlessMemory is_no_memory result (filters_of x.now filters.now) }
{
    let filters = by_name(alloc, filters)?;
    named_filters(alloc, &FieldNames::of(x), filters.as_slice())
}

fn named_filters(
    alloc: Global,
    known: &FieldNames,
    filters: &[&(Text, Text)],
) -> Result<Items<FilterText>, QueryFault>
    ensures { IsUnlessMemory is_no_memory result
        (each_found unknown_filter (named_filter known.now.x.now) (map (λ f. f.now) filters.now)) }
{
    let mut texts = Items::new(alloc);
    for filter in filters {
        let Some(text) = named_filter(alloc, known, filter)? else {
            return Err(QueryFault::Q4(filter.0.copy(alloc)?));
        };
        texts.push(text)?;
    }
    Ok(texts)
}

fn named_filter(
    alloc: Global,
    known: &FieldNames,
    filter: &(Text, Text),
) -> Result<Option<FilterText>, NoMemory>
    ensures { IfOk result (λ text. text ≡ named_filter known.now.x.now filter.now) }
{
    let (name, text) = filter;
    match pick_named(known, name)? {
        None => Ok(None),
        Some(on) => Ok(Some(filter_on(alloc, known.x, on, name.as_str(), text)?)),
    }
}

/// A filter's text on what is picked, with the name that it goes by.
pub(crate) fn filter_on(
    alloc: Global,
    x: &Explore,
    on: Pick,
    name: &str,
    text: &Text,
) -> Result<FilterText, NoMemory>
    ensures { IfOk result (λ made. made ≡ filter_on x.now on name.now text.now) }
{
    Ok(FilterText {
        on,
        kind: filter_kind_of(pick_kind(x, on)),
        name: Text::from_str(alloc, name)?,
        text: text.copy(alloc)?,
    })
}

// The kind of filter for values of a kind.
fn filter_kind_of(kind: Kind) -> FilterKind
    ensures { result ≡ filter_kind_of kind }
{
    match kind {
        Kind::Text => FilterKind::Text,
        Kind::Number => FilterKind::Number,
        Kind::Truth => FilterKind::Truth,
        Kind::Day | Kind::Moment => FilterKind::Date,
    }
}

// The filters by the bytes of their names; those of one name stay in their order.
fn by_name<'a>(
    alloc: Global,
    filters: &'a [(Text, Text)],
) -> Result<Vec<&'a (Text, Text)>, NoMemory>
    ensures { IfOk result (λ sorted. map (λ f. f.now) sorted.items ≡ by_name filters.now) }
{
    let mut sorted = Vec::new(alloc);
    for filter in filters {
        put_in(&mut sorted, filter)?;
    }
    Ok(sorted)
}

fn put_in<'a>(filters: &mut Vec<&'a (Text, Text)>, filter: &'a (Text, Text)) -> Result<(), NoMemory>
    ensures { IfOk result (λ _. map (λ f. f.now) filters.new.items
        ≡ put_in (map (λ f. f.now) filters.old.items) filter.now) }
{
    let place = place_of(filters.as_slice(), filter);
    filters.insert(place, filter)?;
    Ok(())
}

// The place of the first that the filter goes before, and else the end.
fn place_of(filters: &[&(Text, Text)], filter: &(Text, Text)) -> usize
    ensures first { result
        ≡ position_or_len (goes_before filter.now) (map (λ f. f.now) filters.now) }
    ensures within { result ≤ length filters.now }
{
    for place in 0..filters.len() {
        if goes_before(filter, filters[place]) {
            return place;
        }
    }
    filters.len()
}

fn goes_before(filter: &(Text, Text), other: &(Text, Text)) -> bool
    ensures { result ≡ goes_before filter.now other.now }
{
    filter.0.as_str() < other.0.as_str()
}
