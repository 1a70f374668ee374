// Where the values of a query's fields come from in a group of an aggregate table.

ghost use Rattle.std.specs.Prelude.{◌≡◌, ◌++◌, IfOk, OnOk, Some, map};
ghost use Rattle.lk_semantics.specs.Answers.{dims_of};
ghost use Rattle.lk_regroup.specs.FieldSources.{frame_between, frame_for, gives, is_had, source_of, sourced, timeframe_at, timeframe_in};

use crate::framing::{is_had_from, is_same_frame};
use lk_types::{Explore, Filter, Frame, Pick, Shape};
use lk_val::{Copied, Items, NoMemory};
use std::alloc::Global;

// Where a field's value comes from: the place of a dimension, and the timeframe that its value is brought to, if it
// does not stay as it is.
#[derive(Clone, Copy)]
pub(crate) struct FieldSource {
    pub(crate) place: usize,
    pub(crate) frame: Option<Frame>,
}

// A timeframe of a view's group, both by number.
#[derive(Clone, Copy)]
struct Timeframe {
    part: u32,
    group: u32,
    frame: Frame,
}

/// Where the values of the picked dimensions come from, in order.
pub(crate) fn picked_sources(
    alloc: Global,
    x: &Explore,
    dims: &[u32],
    picks: &[Pick],
) -> Result<Items<Option<FieldSource>>, NoMemory>
    ensures { IfOk result (λ sources. sources ≡ map (source_of x.now dims.now) (dims_of picks.now)) }
{
    let mut sources = Items::new(alloc);
    for pick in picks {
        if let Pick::Dim(f) = pick {
            sources.push(source_of(x, dims, *f))?;
        }
    }
    Ok(sources)
}

// Where a field's value comes from: the first dimension that gives it.
fn source_of(x: &Explore, dims: &[u32], f: u32) -> Option<FieldSource>
    ensures { result ≡ source_of x.now dims.now f }
{
    for (place, d) in dims.iter().enumerate() {
        if gives(x, f, *d) {
            let frame = frame_for(x, f, *d);
            return Some(FieldSource { place, frame });
        }
    }
    None
}

// Whether a dimension gives a field: it is the field, or a finer timeframe of its view's group.
fn gives(x: &Explore, f: u32, d: u32) -> bool
    ensures { result ≡ gives x.now f d }
{
    if d == f {
        return true;
    }
    is_had(timeframe_at(x, f), timeframe_at(x, d))
}

// The timeframe that a dimension's value is brought to for a field that it gives, if it does not stay as it is.
fn frame_for(x: &Explore, f: u32, d: u32) -> Option<Frame>
    ensures { result ≡ frame_for x.now f d }
{
    if d == f {
        return None;
    }
    match (timeframe_at(x, f), timeframe_at(x, d)) {
        (Some(coarse), Some(fine)) => frame_between(coarse, fine),
        _ => None,
    }
}

fn frame_between(coarse: Timeframe, fine: Timeframe) -> Option<Frame>
    ensures { result ≡ frame_between (Some coarse) (Some fine) }
{
    if is_same_frame(coarse.frame, fine.frame) {
        None
    } else {
        Some(coarse.frame)
    }
}

// Whether both are timeframes of one group, of which the first is had from the second.
fn is_had(coarse: Option<Timeframe>, fine: Option<Timeframe>) -> bool
    ensures { result ≡ is_had coarse fine }
{
    match (coarse, fine) {
        (Some(coarse), Some(fine)) => {
            coarse.part == fine.part
                && coarse.group == fine.group
                && is_had_from(coarse.frame, fine.frame)
        }
        _ => false,
    }
}

// The timeframe that the field of a number is, if it is one.
fn timeframe_at(x: &Explore, f: u32) -> Option<Timeframe>
    ensures { result ≡ timeframe_at x.now f }
{
    match x.fields.as_slice().get(f as usize) {
        Some(field) => timeframe_in(field.part, &field.shape),
        None => None,
    }
}

fn timeframe_in(part: u32, shape: &Shape) -> Option<Timeframe>
    ensures { result ≡ timeframe_in part shape.now }
{
    match shape {
        Shape::Frame(group, frame) => Some(Timeframe {
            part,
            group: *group,
            frame: *frame,
        }),
        _ => None,
    }
}

/// Filters on fields, each with where its field's value comes from.
pub(crate) fn add_filters(
    alloc: Global,
    x: &Explore,
    dims: &[u32],
    filters: &[(u32, Filter)],
    tests: &mut Items<(Option<FieldSource>, Filter)>,
) -> Result<(), NoMemory>
    ensures { OnOk result (tests.new ≡ tests.old ++ map (sourced x.now dims.now) filters.now) }
{
    for filter in filters {
        let source = source_of(x, dims, filter.0);
        tests.push((source, filter.1.copied(alloc)?))?;
    }
    Ok(())
}
