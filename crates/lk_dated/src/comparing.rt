ghost use Rattle.std.specs.Prelude.{◌≡◌, ◌++◌, ℕ, IfOk, length, map};
ghost use Rattle.lk_types.specs.FormulaNodes.{arity, made};
ghost use Rattle.lk_dated.specs.Dated.{read_beside, stands_at};
ghost use Rattle.lk_dated.specs.DatedNodes.{comparison_made, is_comparison, tree_made};
ghost use Rattle.lk_dated.specs.Sides.{side_at};

use crate::kinds::side_at;
use crate::side::Side;
use crate::tree::Tree;
use crate::written_out::written_out;
use lk_types::{Expr, KindSet, Node};
use lk_val::{Copied, NoMemory, Value};
use std::alloc::Global;

// The tree of a node and its operands, in which text literals are read already, given what is told of the operands.
pub(crate) fn tree_made(
    alloc: Global,
    by: &[Expr],
    node: &Node,
    sides: &[Side],
    operands: Vec<Tree>,
) -> Result<Tree, NoMemory>
    requires { length operands.items ≡ arity node.now }
    ensures { IfOk result (λ tree. tree ≡ tree_made (stands_at by.now) node.now sides.now operands.items) }
{
    match node {
        Node::Column(_, column) => stands_at(alloc, by, *column),
        _ => {
            if is_comparison(node) {
                comparison_made(alloc, node, sides, operands)
            } else {
                Tree::of(alloc, node.copied(alloc)?, operands)
            }
        }
    }
}

// What stands for the column of a number; null past the end.
fn stands_at(alloc: Global, by: &[Expr], column: u32) -> Result<Tree, NoMemory>
    ensures { (part : ℕ) → IfOk result (λ tree. tree ≡ stands_at by.now part column) }
{
    match by.get(column as usize) {
        Some(e) => Tree::copy_of(alloc, e),
        None => Tree::leaf(alloc, Node::Literal(Value::Null)),
    }
}

fn is_comparison(node: &Node) -> bool
    ensures { result ≡ is_comparison node.now }
{
    match node {
        Node::Compare(_) | Node::In(_) | Node::Between | Node::NullIf => true,
        _ => false,
    }
}

fn comparison_made(
    alloc: Global,
    node: &Node,
    sides: &[Side],
    operands: Vec<Tree>,
) -> Result<Tree, NoMemory>
    requires { length operands.items ≡ arity node.now }
    ensures { IfOk result (λ tree. tree ≡ comparison_made (side_at sides.now 0).literal node.now sides.now operands.items) }
{
    let first = side_at(sides, 0);
    match first.literal {
        None => read_made(alloc, node, first.kinds, operands),
        Some(_) => written_out(alloc, node, sides, operands),
    }
}

// The tree of a node and its operands, each text literal among them read beside one of these kinds.
pub(crate) fn read_made(
    alloc: Global,
    node: &Node,
    kinds: KindSet,
    operands: Vec<Tree>,
) -> Result<Tree, NoMemory>
    requires { length operands.items ≡ arity node.now }
    ensures { IfOk result (λ tree. tree ≡ made node.now (map (read_beside kinds) operands.items)) }
{
    let operands = all_read(alloc, kinds, operands)?;
    Tree::of(alloc, node.copied(alloc)?, operands)
}

fn all_read(alloc: Global, kinds: KindSet, operands: Vec<Tree>) -> Result<Vec<Tree>, NoMemory>
    ensures { IfOk result (λ read. read.items ≡ map (read_beside kinds) operands.items) }
{
    let mut read = Vec::with_capacity(alloc, operands.len())?;
    for operand in operands {
        read.push(operand.read_beside(alloc, kinds)?)?;
    }
    Ok(read)
}
