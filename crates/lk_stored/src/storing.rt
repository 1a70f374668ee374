ghost use Rattle.std.specs.Prelude.{◌≡◌, ◌&&◌, ◌++◌, IfOk, flat_map};
ghost use Rattle.std.specs.List.{list_all};
ghost use Rattle.lk_types.specs.Expressions.{has_number, mentions};
ghost use Rattle.lk_semantics.specs.Answers.{filtered, measure_at, value_taken};
ghost use Rattle.lk_semantics.specs.Derived.{field_parts};
ghost use Rattle.lk_semantics.specs.Joins.{mentions_of, part_at};
ghost use Rattle.lk_semantics.specs.Rollups.{is_some_number, may_be_stored};
ghost use Rattle.lk_stored.specs.Storing.{are_filters_within, is_node_within, is_value_determined};

use lk_tree::determined;
use lk_types::{Explore, Expr, Filter, Measure, Node, Op};
use lk_val::NoMemory;
use std::alloc::Global;

// Whether a measure may stand in a stored query over some joins.
pub(crate) fn may_be_stored(
    alloc: Global,
    x: &Explore,
    joins: &[u32],
    n: u32,
) -> Result<bool, NoMemory>
    ensures { IfOk result (λ may. may ≡ may_be_stored x.now joins.now (measure_at x.now n)) }
{
    match x.measures.as_slice().get(n as usize) {
        Some(measure) => is_stored(alloc, x, joins, measure),
        // A measure that is not there stands for a count of the base view.
        None => Ok(has_enforced_key(x, 0)),
    }
}

fn is_stored(alloc: Global, x: &Explore, joins: &[u32], measure: &Measure) -> Result<bool, NoMemory>
    ensures { IfOk result (λ may. may ≡ may_be_stored x.now joins.now measure.now) }
{
    match measure.op {
        Op::Min | Op::Max | Op::CountDistinct => Ok(true),
        Op::SumDistinct | Op::AverageDistinct | Op::Number => Ok(false),
        Op::Count | Op::Sum | Op::Average => is_value_determined(alloc, x, joins, measure),
    }
}

// Whether the enforced key of a measure's view determines what the measure computes with.
fn is_value_determined(
    alloc: Global,
    x: &Explore,
    joins: &[u32],
    measure: &Measure,
) -> Result<bool, NoMemory>
    ensures { IfOk result (λ is. is ≡ is_value_determined x.now joins.now measure.now) }
{
    if !has_enforced_key(x, measure.part) {
        return Ok(false);
    }
    let views = determined(alloc, x, joins, measure.part)?;
    Ok(is_within(x, measure, views.as_slice()))
}

fn has_enforced_key(x: &Explore, part: u32) -> bool
    ensures { result ≡ is_some_number (part_at x.now part).enforced }
{
    match x.parts.as_slice().get(part as usize) {
        Some(view) => view.enforced.is_some(),
        None => false,
    }
}

// Whether a measure's value and filters mention only some views.
fn is_within(x: &Explore, measure: &Measure, views: &[u32]) -> bool
    ensures { result ≡ list_all (λ p. has_number p views.now) (mentions_of (value_taken measure.now) ++ flat_map (field_parts x.now) (filtered measure.now.filters)) }
{
    is_value_within(measure, views) && are_filters_within(x, measure.filters.as_slice(), views)
}

fn is_value_within(measure: &Measure, views: &[u32]) -> bool
    ensures { result ≡ list_all (λ p. has_number p views.now) (mentions_of (value_taken measure.now)) }
{
    match measure.op {
        Op::Count | Op::Number => true,
        _ => match &measure.value {
            Some(value) => is_expr_within(value, views),
            None => true,
        },
    }
}

fn are_filters_within(x: &Explore, filters: &[(u32, Filter)], views: &[u32]) -> bool
    ensures { result ≡ are_filters_within x.now views.now filters.now }
{
    filters
        .iter()
        .all(|filter| is_field_within(x, filter.0, views))
}

fn is_field_within(x: &Explore, field: u32, views: &[u32]) -> bool
    ensures { result ≡ list_all (λ p. has_number p views.now) (field_parts x.now field) }
{
    match x.fields.as_slice().get(field as usize) {
        Some(field) => is_expr_within(&field.expr, views),
        None => true,
    }
}

// Whether an expression mentions only some views.
fn is_expr_within(e: &Expr, views: &[u32]) -> bool
    ensures { result ≡ list_all (λ p. has_number p views.now) (mentions e.now) }
{
    are_nodes_within(e.nodes(), views)
}

fn are_nodes_within(nodes: &[Node], views: &[u32]) -> bool
    ensures { result ≡ list_all (is_node_within views.now) nodes.now }
{
    nodes.iter().all(|node| is_node_within(node, views))
}

fn is_node_within(node: &Node, views: &[u32]) -> bool
    ensures { result ≡ is_node_within views.now node.now }
{
    match node {
        Node::Column(part, _) => views.contains(part),
        _ => true,
    }
}
