ghost use Rattle.std.specs.Prelude.{◌≡◌, [], IfOk};
ghost use Rattle.lk_postfix.specs.Postfix.{after_nodes};
ghost use Rattle.lk_types.specs.FormulaNodes.{arity};
ghost use Rattle.lk_resolved.specs.Columns.{column_made, operand};
ghost use Rattle.lk_resolved.specs.Explores.{column_in, column_of};

use lk_postfix::{Stack, TakesOperands};
use lk_types::{Expr, Node};
use lk_val::NoMemory;
use std::alloc::Global;

// The part and the column that an expression is, if there is one and it is a column.
pub(crate) fn column_in(alloc: Global, e: &Option<Expr>) -> Result<Option<(u32, u32)>, NoMemory>
    ensures { IfOk result (λ column. column ≡ column_in e.now) }
{
    match e {
        None => Ok(None),
        Some(e) => column_of(alloc, e),
    }
}

fn column_of(alloc: Global, e: &Expr) -> Result<Option<(u32, u32)>, NoMemory>
    ensures { IfOk result (λ column. column ≡ column_of e.now) }
{
    let stack = columns_left(alloc, e.nodes())?;
    Ok(operand(stack.as_slice(), 0))
}

// For each expression that the nodes leave on the stack, the column that it is.
fn columns_left(alloc: Global, nodes: &[Node]) -> Result<Stack<Option<(u32, u32)>>, NoMemory>
    ensures { IfOk result (λ stack. stack ≡ after_nodes arity column_made [] nodes.now) }
{
    let mut stack = Stack::new(alloc);
    for node in nodes {
        let count = node.arity();
        let made = column_made(node, stack.operands(count));
        stack.replace(count, made)?;
    }
    Ok(stack)
}

fn column_made(node: &Node, _operands: &[Option<(u32, u32)>]) -> Option<(u32, u32)>
    ensures { result ≡ column_made node.now _operands.now }
{
    match node {
        Node::Column(part, column) => Some((*part, *column)),
        _ => None,
    }
}

fn operand(columns: &[Option<(u32, u32)>], place: usize) -> Option<(u32, u32)>
    ensures { result ≡ operand columns.now place }
{
    match columns.get(place) {
        None => None,
        Some(column) => *column,
    }
}
