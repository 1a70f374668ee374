ghost use Rattle.std.specs.Prelude.{◌≡◌, ◌≤◌, [], ◌∷◌, ℕ, true, IfOk, List, length, map};
ghost use Rattle.lk_postfix.specs.Postfix.{after_node, after_nodes, is_whole, operands, replaced};
ghost use Rattle.lk_types.specs.FormulaNodes.{arity};
ghost use Rattle.lk_types.specs.declared.kind_set.KindSet.{KindSet};
ghost use Rattle.lk_dated.specs.Dated.{dated_by, stands_at};
ghost use Rattle.lk_dated.specs.DatedNodes.{dated_made, tree_made};
ghost use Rattle.lk_dated.specs.FormulaKinds.{kinds_by};
ghost use Rattle.lk_dated.specs.Sides.{side_made, side_of};

use crate::comparing::tree_made;
use crate::kinds::side_made;
use crate::side::Side;
use crate::tree::Tree;
use lk_postfix::{Stack, TakesOperands};
use lk_types::{Expr, Node};
use lk_val::NoMemory;
use std::alloc::Global;

/// The expression with others in place of its columns and with its text literals read: for a column of number i, whatever
/// its part, the expression at place i, of which the side at that place is told, and null past the end. Nodes are moved,
/// and copied only out of these others. (lookd)
pub fn dated(alloc: Global, e: &Expr, sides: &[Side], by: &[Expr]) -> Result<Expr, NoMemory>
    ensures { (leaf : ℕ → ℕ → KindSet) → sides.now ≡ map (side_of leaf) by.now
        → IfOk result (λ made. made ≡ dated_by (kinds_by leaf) (stands_at by.now) e.now) }
{
    let mut trees = trees_left(alloc, e.nodes(), sides, by)?;
    Ok(top_of(&mut trees).into_expr())
}

// The tree on top of a stack.
fn top_of(trees: &mut Vec<Tree>) -> Tree
    requires { length trees.old.items ≡ 1 }
    ensures { trees.old.items ≡ result ∷ [] }
{
    match trees.pop() {
        Some(tree) => tree,
        None => unreachable!(),
    }
}

// The trees that the nodes leave on the stack.
fn trees_left(
    alloc: Global,
    nodes: &[Node],
    sides: &[Side],
    by: &[Expr],
) -> Result<Vec<Tree>, NoMemory>
    requires { is_whole arity nodes.now ≡ true }
    ensures one { IfOk result (λ trees. length trees.items ≡ 1) }
    ensures value { (leaf : ℕ → ℕ → KindSet) → sides.now ≡ map (side_of leaf) by.now
        → IfOk result (λ trees. trees.items ≡ after_nodes arity (dated_made (kinds_by leaf) (stands_at by.now)) [] nodes.now) }
{
    let mut stack = Stack::new(alloc);
    let mut trees = Vec::new(alloc);
    for node in nodes {
        add_node(alloc, node, sides, by, &mut stack, &mut trees)?;
    }
    Ok(trees)
}

// Puts what a node makes of the operands on top of two stacks in their place.
fn add_node(
    alloc: Global,
    node: &Node,
    sides: &[Side],
    by: &[Expr],
    stack: &mut Stack<Side>,
    trees: &mut Vec<Tree>,
) -> Result<(), NoMemory>
    requires { arity node.now ≤ length trees.old.items }
    ensures sides { IfOk result (λ _. stack.new ≡ after_node arity (side_made sides.now) stack.old node.now) }
    ensures trees { IfOk result (λ _. trees.new.items
        ≡ replaced (arity node.now) (tree_made (stands_at by.now) node.now (operands (arity node.now) stack.old) (operands (arity node.now) trees.old.items)) trees.old.items) }
{
    let count = node.arity();
    let below = trees.len().saturating_sub(count);
    let operands = trees.split_off(below)?;
    let tree = tree_made(alloc, by, node, stack.operands(count), operands)?;
    let side = side_made(alloc, sides, node, stack.operands(count))?;
    stack.replace(count, side)?;
    trees.push(tree)?;
    Ok(())
}
