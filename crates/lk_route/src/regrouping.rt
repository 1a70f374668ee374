// Which measures may be put together from the finer groups of an aggregate table.

ghost use Rattle.std.specs.Prelude.{◌≡◌, IfOk};
ghost use Rattle.std.specs.List.{list_all};
ghost use Rattle.lk_semantics.specs.Answers.{measure_at, value_taken};
ghost use Rattle.lk_semantics.specs.Joins.{mentions_of};
ghost use Rattle.lk_semantics.specs.Rollups.{determined_views, is_determined_by, mentions_only, regroups, rollup_joins};
ghost use Rattle.lk_route.specs.Roles.{are_all_within, is_field_within, is_filter_within, is_one_of};

use crate::role::role_of;
use lk_tree::determined;
use lk_types::{Explore, Expr, Filter, Measure, Op, Rollup};
use lk_val::NoMemory;
use std::alloc::Global;

/// Whether the measure of a number may be put together from finer groups: a least or greatest value always, and a count, a sum or an
/// average where the key of its view lies in one group, since it determines all that the groups and the measure are made of. `joins`
/// are those of the aggregate table. (Looker, LookML reference: aggregate_table; lookd)
pub(crate) fn regroups(
    alloc: Global,
    x: &Explore,
    r: &Rollup,
    joins: &[u32],
    number: u32,
) -> Result<bool, NoMemory>
    requires { joins.now ≡ rollup_joins x.now r.now }
    ensures { IfOk result (λ does. does ≡ regroups x.now r.now (measure_at x.now number)) }
{
    match x.measures.as_slice().get(number as usize) {
        Some(measure) => does_regroup(alloc, x, r, joins, measure),
        // A measure that is not there stands for a count of the base view, which mentions nothing.
        None => are_dims_determined(alloc, x, r, joins, 0),
    }
}

// Whether the key of a view determines what the dimensions of an aggregate table mention.
fn are_dims_determined(
    alloc: Global,
    x: &Explore,
    r: &Rollup,
    joins: &[u32],
    view: u32,
) -> Result<bool, NoMemory>
    requires { joins.now ≡ rollup_joins x.now r.now }
    ensures { IfOk result (λ are. are ≡ list_all (is_field_within x.now (determined_views x.now (rollup_joins x.now r.now) view)) r.now.dims) }
{
    let views = determined(alloc, x, joins, view)?;
    are_fields_within(alloc, x, views.as_slice(), r.dims.as_slice())
}

fn does_regroup(
    alloc: Global,
    x: &Explore,
    r: &Rollup,
    joins: &[u32],
    measure: &Measure,
) -> Result<bool, NoMemory>
    requires { joins.now ≡ rollup_joins x.now r.now }
    ensures { IfOk result (λ does. does ≡ regroups x.now r.now measure.now) }
{
    match measure.op {
        Op::Min | Op::Max => Ok(true),
        Op::CountDistinct | Op::SumDistinct | Op::AverageDistinct | Op::Number => Ok(false),
        Op::Count | Op::Sum | Op::Average => is_determined_by(alloc, x, r, joins, measure),
    }
}

fn is_determined_by(
    alloc: Global,
    x: &Explore,
    r: &Rollup,
    joins: &[u32],
    measure: &Measure,
) -> Result<bool, NoMemory>
    requires { joins.now ≡ rollup_joins x.now r.now }
    ensures { IfOk result (λ is. is ≡ is_determined_by x.now r.now measure.now) }
{
    let views = determined(alloc, x, joins, measure.part)?;
    are_all_within(alloc, x, views.as_slice(), r, measure)
}

// Whether what the groups of an aggregate table and a measure are made of mentions only some views.
fn are_all_within(
    alloc: Global,
    x: &Explore,
    views: &[u32],
    r: &Rollup,
    measure: &Measure,
) -> Result<bool, NoMemory>
    ensures { IfOk result (λ are. are ≡ are_all_within x.now views.now r.now measure.now) }
{
    if !are_fields_within(alloc, x, views, r.dims.as_slice())? {
        return Ok(false);
    }
    if !is_value_within(alloc, x, views, measure)? {
        return Ok(false);
    }
    are_filters_within(alloc, x, views, measure.filters.as_slice())
}

// Whether some fields mention only some views.
fn are_fields_within(
    alloc: Global,
    x: &Explore,
    views: &[u32],
    fields: &[u32],
) -> Result<bool, NoMemory>
    ensures { IfOk result (λ are. are ≡ list_all (is_field_within x.now views.now) fields.now) }
{
    for field in fields {
        if !is_field_within(alloc, x, views, *field)? {
            return Ok(false);
        }
    }
    Ok(true)
}

// Whether the fields of some filters mention only some views.
fn are_filters_within(
    alloc: Global,
    x: &Explore,
    views: &[u32],
    filters: &[(u32, Filter)],
) -> Result<bool, NoMemory>
    ensures { IfOk result (λ are. are ≡ list_all (is_filter_within x.now views.now) filters.now) }
{
    for filter in filters {
        if !is_field_within(alloc, x, views, filter.0)? {
            return Ok(false);
        }
    }
    Ok(true)
}

fn is_field_within(alloc: Global, x: &Explore, views: &[u32], field: u32) -> Result<bool, NoMemory>
    ensures { IfOk result (λ is. is ≡ is_field_within x.now views.now field) }
{
    match x.fields.as_slice().get(field as usize) {
        Some(field) => is_within(alloc, x, views, &field.expr),
        None => Ok(true),
    }
}

// Whether the value that a measure computes with mentions only some views: a count and a `number` have none.
fn is_value_within(
    alloc: Global,
    x: &Explore,
    views: &[u32],
    measure: &Measure,
) -> Result<bool, NoMemory>
    ensures { IfOk result (λ is. is ≡ list_all (is_one_of views.now) (mentions_of (value_taken measure.now))) }
{
    match (measure.op, &measure.value) {
        (Op::Count | Op::Number, _) | (_, None) => Ok(true),
        (_, Some(value)) => is_within(alloc, x, views, value),
    }
}

// Whether an expression mentions only some views.
fn is_within(alloc: Global, x: &Explore, views: &[u32], e: &Expr) -> Result<bool, NoMemory>
    ensures { IfOk result (λ is. is ≡ mentions_only (is_one_of views.now) e.now) }
{
    // Whose key the role speaks of plays no part in what it mentions.
    Ok(role_of(alloc, x, views, 0, e)?.is_within)
}
