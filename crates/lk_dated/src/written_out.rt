ghost use Rattle.std.specs.Prelude.{◌≡◌, ◌++◌, ◌∷◌, [], ◌≤◌, IfOk, drop, length, map};
ghost use Rattle.lk_types.specs.FormulaNodes.{arity, operand};
ghost use Rattle.lk_types.specs.Formula.{Case, Compare, otherwise, when};
ghost use Rattle.lk_types.specs.Unfolded.{any_equal, from_to, null_where_equal};
ghost use Rattle.lk_dated.specs.Dated.{compare_sides, read_beside};
ghost use Rattle.lk_dated.specs.DatedNodes.{equations_beside, first_beside, written_out};
ghost use Rattle.lk_dated.specs.Sides.{side_at};

use crate::comparing::read_made;
use crate::kinds::side_at;
use crate::side::Side;
use crate::tree::Tree;
use lk_types::{Comparison, KindSet, Node};
use lk_val::{NoMemory, Value};
use std::alloc::Global;

// A comparison whose first operand is a text literal: IN, BETWEEN and NULLIF as the comparisons that they stand for, each
// with a copy of it that is read beside the other side.
pub(crate) fn written_out(
    alloc: Global,
    node: &Node,
    sides: &[Side],
    operands: Vec<Tree>,
) -> Result<Tree, NoMemory>
    requires { length operands.items ≡ arity node.now }
    ensures { IfOk result (λ tree. tree ≡ written_out node.now sides.now operands.items) }
{
    match node {
        Node::In(_) => any_equal(alloc, sides, operands),
        Node::Between => from_to(alloc, sides, operands),
        Node::NullIf => null_where_equal(alloc, sides, operands),
        _ => read_made(alloc, node, side_at(sides, 1).kinds, operands),
    }
}

// Equations joined by OR behind FALSE.
fn any_equal(alloc: Global, sides: &[Side], operands: Vec<Tree>) -> Result<Tree, NoMemory>
    ensures { IfOk result (λ tree. tree ≡ any_equal (equations_beside (operand operands.items 0) (drop 1 sides.now) (drop 1 operands.items))) }
{
    let mut first = operands;
    let others = first.split_off(first.len().min(1))?;
    let mut left = behind_first(sides);
    let mut made = Tree::leaf(alloc, Node::Literal(Value::Truth(false)))?;
    for other in others {
        let Some((side, rest)) = left.split_first() else {
            return Ok(made);
        };
        let equation = beside(alloc, Comparison::Equal, first.as_slice(), *side, other)?;
        made = Tree::binary(Node::Or, made, equation)?;
        left = rest;
    }
    Ok(made)
}

fn behind_first(sides: &[Side]) -> &[Side]
    ensures { result.now ≡ drop 1 sides.now }
{
    match sides.split_first() {
        Some((_, others)) => others,
        None => &[],
    }
}

// The comparison of the first operand with another, of which this is told.
fn beside(
    alloc: Global,
    comparison: Comparison,
    operands: &[Tree],
    side: Side,
    other: Tree,
) -> Result<Tree, NoMemory>
    ensures { IfOk result (λ tree. tree ≡ Compare comparison (read_beside side.kinds (operand operands.now 0)) other) }
{
    let first = first_read(alloc, operands, side.kinds)?;
    Tree::binary(Node::Compare(comparison), first, other)
}

// A copy of the first operand, beside one of these kinds.
fn first_read(alloc: Global, operands: &[Tree], kinds: KindSet) -> Result<Tree, NoMemory>
    ensures { IfOk result (λ tree. tree ≡ read_beside kinds (operand operands.now 0)) }
{
    let copy = first_copy(alloc, operands)?;
    copy.read_beside(alloc, kinds)
}

fn first_copy(alloc: Global, operands: &[Tree]) -> Result<Tree, NoMemory>
    ensures { IfOk result (λ tree. tree ≡ operand operands.now 0) }
{
    match operands.get(0) {
        Some(first) => first.copy(alloc),
        None => Tree::leaf(alloc, Node::Literal(Value::Null)),
    }
}

// Two comparisons joined by AND.
fn from_to(alloc: Global, sides: &[Side], operands: Vec<Tree>) -> Result<Tree, NoMemory>
    requires { length operands.items ≡ 3 }
    ensures { IfOk result (λ tree. tree ≡ from_to (first_beside sides.now operands.items 1) (first_beside sides.now operands.items 2)) }
{
    let mut first = operands;
    let high = last_of(&mut first);
    let low = last_of(&mut first);
    let first = first.as_slice();
    let from = beside(alloc, Comparison::AtLeast, first, side_at(sides, 1), low)?;
    let to = beside(alloc, Comparison::AtMost, first, side_at(sides, 2), high)?;
    Tree::binary(Node::And, from, to)
}

// A CASE that answers null where the two are equal, and else the first as it was written.
fn null_where_equal(alloc: Global, sides: &[Side], operands: Vec<Tree>) -> Result<Tree, NoMemory>
    requires { length operands.items ≡ 2 }
    ensures { IfOk result (λ tree. tree ≡ null_where_equal (operand operands.items 0) (first_beside sides.now operands.items 1)) }
{
    let mut first = operands;
    let other = last_of(&mut first);
    let first = first.as_slice();
    let is_equal = beside(alloc, Comparison::Equal, first, side_at(sides, 1), other)?;
    let null = Tree::leaf(alloc, Node::Literal(Value::Null))?;
    let otherwise = first_copy(alloc, first)?;
    case_of(alloc, is_equal, null, otherwise)
}

// A CASE of one branch and an ELSE.
fn case_of(alloc: Global, condition: Tree, value: Tree, other: Tree) -> Result<Tree, NoMemory>
    ensures { IfOk result (λ tree. tree ≡ Case (when condition value (otherwise other))) }
{
    let operands = vec![in alloc; condition, value, other]?;
    Tree::of(alloc, Node::Case(3), operands)
}

// The last operand, which leaves the others.
fn last_of(operands: &mut Vec<Tree>) -> Tree
    requires { 1 ≤ length operands.old.items }
    ensures { operands.old.items ≡ operands.new.items ++ result ∷ [] }
{
    match operands.pop() {
        Some(last) => last,
        None => unreachable!(),
    }
}
