ghost use Rattle.std.specs.Prelude.{◌≡◌, ◌++◌, [], ℕ, IfOk, List, drop, map};
ghost use Rattle.std.specs.List.{list_all};
ghost use Rattle.lk_postfix.specs.Postfix.{after_nodes};
ghost use Rattle.lk_types.specs.Formula.{Formula};
ghost use Rattle.lk_types.specs.FormulaNodes.{arity};
ghost use Rattle.lk_types.specs.Kinds.{text_if, truth_if};
ghost use Rattle.lk_types.specs.declared.kind_set.KindSet.{KindSet};
ghost use Rattle.lk_eval.specs.NodeKinds.{kinds_made};
ghost use Rattle.lk_dated.specs.Dated.{dated_by, stands_at};
ghost use Rattle.lk_dated.specs.FormulaKinds.{kinds_by};
ghost use Rattle.lk_dated.specs.Sides.{do_sides_compare, kinds_of_node, no_leaves, null_if_kinds, side_at, side_made, side_of};

use crate::side::Side;
use lk_eval::kinds_made;
use lk_postfix::{Stack, TakesOperands};
use lk_types::{Expr, Kind, KindSet, Leaves, Node};
use lk_val::{Items, NoMemory};
use std::alloc::Global;

/// The kinds of an expression with others in place of its columns and with its text literals read, given what is told of
/// the one for each column's number; null stands past the end. The expressions themselves may be of any size. (lookd)
pub fn kinds_dated(alloc: Global, e: &Expr, by: &[Side]) -> Result<KindSet, NoMemory>
    ensures { (leaf : ℕ → ℕ → KindSet) (formulas : List Formula) → by.now ≡ map (side_of leaf) formulas
        → IfOk result (λ kinds. kinds ≡ kinds_by leaf (dated_by (kinds_by leaf) (stands_at formulas) e.now)) }
{
    let sides = sides_left(alloc, e.nodes(), by)?;
    Ok(side_at(sides.as_slice(), 0).kinds)
}

// The sides that the nodes leave on the stack.
fn sides_left(alloc: Global, nodes: &[Node], by: &[Side]) -> Result<Stack<Side>, NoMemory>
    ensures { IfOk result (λ stack. stack ≡ after_nodes arity (side_made by.now) [] nodes.now) }
{
    let mut stack = Stack::new(alloc);
    for node in nodes {
        let count = node.arity();
        let made = side_made(alloc, by, node, stack.operands(count))?;
        stack.replace(count, made)?;
    }
    Ok(stack)
}

// A side by its place; null where there is none.
pub(crate) fn side_at(sides: &[Side], place: usize) -> Side
    ensures { result ≡ side_at sides.now place }
{
    match sides.get(place) {
        Some(side) => *side,
        None => Side::null(),
    }
}

// What is told of a node, given its sides and what is told of what stands for each column's number.
pub(crate) fn side_made(
    alloc: Global,
    by: &[Side],
    node: &Node,
    sides: &[Side],
) -> Result<Side, NoMemory>
    ensures { IfOk result (λ side. side ≡ side_made by.now node.now sides.now) }
{
    match node {
        Node::Column(_, column) => Ok(side_at(by, *column as usize)),
        Node::Literal(value) => Ok(Side::of_value(value)),
        _ => Ok(Side::no_literal(kinds_of_node(alloc, node, sides)?)),
    }
}

fn kinds_of_node(alloc: Global, node: &Node, sides: &[Side]) -> Result<KindSet, NoMemory>
    ensures { IfOk result (λ kinds. kinds ≡ kinds_of_node node.now sides.now) }
{
    let (a, b) = (side_at(sides, 0), side_at(sides, 1));
    match node {
        Node::Compare(_) => Ok(truth_if(a.does_compare(b))),
        Node::In(_) => Ok(truth_if(!a.kinds.is_empty() && do_others_compare(a, sides))),
        Node::Between => Ok(truth_if(a.does_compare(b) && a.does_compare(side_at(sides, 2)))),
        Node::NullIf => Ok(null_if_kinds(a, b)),
        _ => other_kinds(alloc, node, sides),
    }
}

// The kinds of a node that compares nothing.
fn other_kinds(alloc: Global, node: &Node, sides: &[Side]) -> Result<KindSet, NoMemory>
    ensures { IfOk result (λ kinds. kinds ≡ kinds_made no_leaves node.now (map (λ side. side.kinds) sides.now)) }
{
    let kinds = kinds_of_sides(alloc, sides)?;
    let nothing = Leaves {
        kinds: Items::new(alloc),
    };
    Ok(kinds_made(node, kinds.as_slice(), &nothing))
}

fn kinds_of_sides(alloc: Global, sides: &[Side]) -> Result<Items<KindSet>, NoMemory>
    ensures { IfOk result (λ kinds. kinds ≡ map (λ side. side.kinds) sides.now) }
{
    let mut kinds = Items::new(alloc);
    for side in sides {
        kinds.push(side.kinds)?;
    }
    Ok(kinds)
}

// Whether a side compares with each behind the first.
fn do_others_compare(side: Side, sides: &[Side]) -> bool
    ensures { result ≡ list_all (do_sides_compare side) (drop 1 sides.now) }
{
    match sides.split_first() {
        Some((_, others)) => do_all_compare(side, others),
        None => true,
    }
}

fn do_all_compare(side: Side, others: &[Side]) -> bool
    ensures { result ≡ list_all (do_sides_compare side) others.now }
{
    others.iter().all(|other| side.does_compare(*other))
}

// The kinds of NULLIF: of a text literal it gives the text as it was written.
fn null_if_kinds(a: Side, b: Side) -> KindSet
    ensures { result ≡ null_if_kinds a.literal a b }
{
    match a.literal {
        None => a.kinds.shared(b.kinds_beside(a.kinds).comparable()),
        Some(_) => text_if(a.does_compare(b)),
    }
}

// The set of truth alone, where the condition holds.
fn truth_if(condition: bool) -> KindSet
    ensures { result ≡ truth_if condition }
{
    KindSet::only(Kind::Truth).kept_if(condition)
}

// The set of text alone, where the condition holds.
fn text_if(condition: bool) -> KindSet
    ensures { result ≡ text_if condition }
{
    KindSet::only(Kind::Text).kept_if(condition)
}
