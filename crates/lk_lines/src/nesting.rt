ghost use Rattle.std.specs.Prelude.{◌≡◌, ◌++◌, ◌≤◌, ◌∷◌, [], IfOk, OnOk, List, length, map, option_map};
ghost use Rattle.std.specs.List.{list_any};
ghost use Rattle.lk_postfix.specs.Postfix.{Builds, after_node};
ghost use Rattle.lk_types.specs.Calculation.{Calculation};
ghost use Rattle.lk_types.specs.CalculationNodes.{arity, made};
ghost use Rattle.lk_semantics.specs.Answers.{measure_at};
ghost use Rattle.lk_lines.specs.Nesting.{is_number, number_at, put_in, put_in_times};

use lk_types::{Explore, NumExpr, NumNode};
use lk_val::{Items, NoMemory};
use std::alloc::Global;

// A calculation over the components of its measures: the calculations of `number`s are put into each other at most
// so many times, and no more once nothing changes.
pub(crate) fn over_components(
    alloc: Global,
    x: &Explore,
    most: usize,
    e: &NumExpr,
) -> Result<NumExpr, NoMemory>
    ensures { IfOk result (λ made. made ≡ put_in_times x.now most e.now) }
{
    let mut over = e.copy(alloc)?;
    for _ in 0..most {
        if !has_number(x, over.nodes()) {
            return Ok(over);
        }
        over = put_in(alloc, x, &over)?;
    }
    Ok(over)
}

// Whether a `number` is among the nodes.
fn has_number(x: &Explore, nodes: &[NumNode]) -> bool
    ensures { result ≡ list_any (is_number x.now) nodes.now }
{
    nodes.iter().any(|node| is_number(x, *node))
}

fn is_number(x: &Explore, node: NumNode) -> bool
    ensures { result ≡ is_number x.now node }
{
    number_at(x, node).is_some()
}

// A calculation with that of each `number` in place of the `number`.
fn put_in(alloc: Global, x: &Explore, e: &NumExpr) -> Result<NumExpr, NoMemory>
    ensures { IfOk result (λ made. made ≡ put_in x.now e.now) }
{
    let mut nodes = Items::new(alloc);
    for node in e.nodes() {
        add_node(x, *node, &mut nodes)?;
    }
    Ok(NumExpr::from_nodes(nodes).unwrap())
}

// Adds a node, or in place of a `number` the nodes of its calculation.
fn add_node(x: &Explore, node: NumNode, nodes: &mut Items<NumNode>) -> Result<(), NoMemory>
    ensures { (stack : List Calculation) → arity node ≤ length stack
        → Builds arity made nodes.old (map (put_in x.now) stack)
        → OnOk result (Builds arity made nodes.new
        (map (put_in x.now) (after_node arity made stack node))) }
{
    match number_at(x, node) {
        Some(number) => {
            add_all(number.nodes(), nodes)?;
            Ok(())
        }
        None => {
            nodes.push(node)?;
            Ok(())
        }
    }
}

// The calculation of the `number` that a node is; none for any other node.
fn number_at(x: &Explore, node: NumNode) -> Option<&NumExpr>
    ensures { option_map (λ number. number.now) result ≡ number_at x.now node }
{
    match node {
        NumNode::Measure(m) => calculation_of(x, m),
        _ => None,
    }
}

// The calculation of a `number`; none of any other measure.
pub(crate) fn calculation_of(x: &Explore, m: u32) -> Option<&NumExpr>
    ensures { option_map (λ number. number.now) result ≡ (measure_at x.now m).number }
{
    match x.measures.as_slice().get(m as usize) {
        Some(measure) => measure.number.as_ref(),
        None => None,
    }
}

fn add_all(added: &[NumNode], nodes: &mut Items<NumNode>) -> Result<(), NoMemory>
    ensures { OnOk result (nodes.new ≡ nodes.old ++ added.now) }
{
    for node in added {
        nodes.push(*node)?;
    }
    Ok(())
}
