ghost use Rattle.std.specs.Prelude.{◌≡◌, [], true, false, IfOk, length, map};
ghost use Rattle.std.specs.List.{list_all};
ghost use Rattle.lk_postfix.specs.Postfix.{after_nodes, is_whole};
ghost use Rattle.lk_types.specs.Dates.{are_literals_dated, is_dated, is_row_dated};
ghost use Rattle.lk_types.specs.Expressions.{value_of};
ghost use Rattle.lk_types.specs.FormulaNodes.{arity};
ghost use Rattle.lk_types.specs.declared.rows.Joined.{Joined};
ghost use Rattle.lk_eval.specs.NodeValues.{is_borrowed, is_node_dated, operand, value_made};
ghost use Rattle.lk_eval.specs.Operands.{operand_value};

use crate::arithmetic::{apply, negated};
use crate::cells::HasCells;
use crate::choices::{first_chosen, first_known, null_if};
use crate::conditions::truth_made;
use crate::framed::timeframe_of;
use crate::operand::{Operand, nth};
use crate::texts::{joined_text, lower_text, upper_text};
use crate::truth::value_of_truth;
use lk_postfix::{Stack, TakesOperands};
use lk_types::{Expr, Joined, Node};
use lk_val::{NoMemory, Value};
use std::alloc::Global;

/// The value of an expression on a joined row, whose parts may be null: unknown is null. Days and moments of the row
/// and of the literals are of the years 1 to 9999. It takes memory in proportion to the expression and no more of the
/// machine's stack for a deeper one. (lookd)
pub fn eval(alloc: Global, e: &Expr, row: &Joined) -> Result<Value, NoMemory>
    requires row { is_row_dated row.now ≡ true }
    requires literals { are_literals_dated e.now ≡ true }
    ensures { IfOk result (λ v. v ≡ value_of e.now row.now) }
{
    eval_over(alloc, e, row)
}

/// The value of an expression on a joined row whose cells are looked at where they stand, as `eval` gives it. (lookd)
pub fn eval_over<R: HasCells>(alloc: Global, e: &Expr, row: &R) -> Result<Value, NoMemory>
    requires row { is_row_dated (R.row_of row.now) ≡ true }
    requires literals { are_literals_dated e.now ≡ true }
    ensures { IfOk result (λ v. v ≡ value_of e.now (R.row_of row.now)) }
{
    let stack = values(alloc, e.nodes(), row)?;
    lowest(alloc, stack.as_slice())
}

// The value at the bottom of a stack, copied; null where there is none.
fn lowest(alloc: Global, stack: &[Operand<'_>]) -> Result<Value, NoMemory>
    ensures { IfOk result (λ v. v ≡ operand (map operand_value stack.now) 0) }
{
    match stack.get(0) {
        Some(value) => value.value().to_value(alloc),
        None => Ok(Value::Null),
    }
}

// The values that the nodes leave on the stack.
fn values<'a, R: HasCells>(
    alloc: Global,
    nodes: &'a [Node],
    row: &'a R,
) -> Result<Stack<Operand<'a>>, NoMemory>
    requires row { is_row_dated (R.row_of row.now) ≡ true }
    requires literals { list_all is_node_dated nodes.now ≡ true }
    requires whole { is_whole arity nodes.now ≡ true }
    ensures { IfOk result (λ stack. map operand_value stack ≡ after_nodes arity (value_made (R.row_of row.now)) [] nodes.now) }
{
    let mut stack = Stack::new(alloc);
    for node in nodes {
        let count = node.arity();
        let made = value_made(alloc, node, stack.operands(count), row)?;
        stack.replace(count, made)?;
    }
    Ok(stack)
}

// What a node makes of its operands.
fn value_made<'a, R: HasCells>(
    alloc: Global,
    node: &'a Node,
    operands: &[Operand<'a>],
    row: &'a R,
) -> Result<Operand<'a>, NoMemory>
    requires count { length operands.now ≡ arity node.now }
    requires dated { list_all is_dated (map operand_value operands.now) ≡ true }
    ensures { IfOk result (λ made. operand_value made ≡ value_made (R.row_of row.now) node.now (map operand_value operands.now)) }
{
    match node {
        Node::Column(part, column) => Ok(Operand::Held(row.cell(*part, *column))),
        Node::Literal(v) => Ok(Operand::Held(v.as_ref())),
        Node::Case(_) => first_chosen(alloc, operands),
        Node::Coalesce(_) => first_known(alloc, operands),
        Node::NullIf => null_if(alloc, operands),
        _ => Ok(Operand::Made(computed(alloc, node, operands)?)),
    }
}

// The value of a node that borrows none; nothing is said of the others.
fn computed(alloc: Global, node: &Node, operands: &[Operand<'_>]) -> Result<Value, NoMemory>
    requires count { length operands.now ≡ arity node.now }
    requires dated { list_all is_dated (map operand_value operands.now) ≡ true }
    ensures { IfOk result (λ v. (row : Joined) → is_borrowed node.now ≡ false → v ≡ value_made row node.now (map operand_value operands.now)) }
{
    match node {
        Node::Framed(f) => timeframe_of(alloc, *f, &nth(operands, 0).to_value(alloc)?),
        Node::Number(op) => Ok(apply(*op, nth(operands, 0), nth(operands, 1))),
        Node::Negate => Ok(negated(nth(operands, 0))),
        Node::Concat => joined_text(alloc, nth(operands, 0), nth(operands, 1)),
        Node::Lower => lower_text(alloc, nth(operands, 0)),
        Node::Upper => upper_text(alloc, nth(operands, 0)),
        _ => Ok(value_of_truth(truth_made(node, operands))),
    }
}
