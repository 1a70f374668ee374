// The truth values of conditions.

ghost use Rattle.std.specs.Prelude.{◌≡◌, true, drop, length, map};
ghost use Rattle.lk_val.specs.ValueRefs.{value_of_ref};
ghost use Rattle.lk_types.specs.Expressions.{is_one_of, value_of_truth};
ghost use Rattle.lk_types.specs.FormulaNodes.{arity};
ghost use Rattle.lk_types.specs.declared.rows.Joined.{Joined};
ghost use Rattle.lk_eval.specs.NodeValues.{is_test, operand, value_made};
ghost use Rattle.lk_eval.specs.Operands.{operand_value};

use crate::comparison::compared;
use crate::like::like;
use crate::operand::{Operand, nth};
use crate::truth::{and_of, not_of, or_of, truth_of};
use lk_types::{Comparison, Node};
use lk_val::ValueRef;

// The truth value of a condition; nothing is said of other nodes.
pub(crate) fn truth_made(node: &Node, operands: &[Operand<'_>]) -> Option<bool>
    requires { length operands.now ≡ arity node.now }
    ensures { (row : Joined) → is_test node.now ≡ true → value_of_truth result ≡ value_made row node.now (map operand_value operands.now) }
{
    match node {
        Node::Not => not_of(truth_of(nth(operands, 0))),
        Node::And => and_of(truth_of(nth(operands, 0)), truth_of(nth(operands, 1))),
        Node::Or => or_of(truth_of(nth(operands, 0)), truth_of(nth(operands, 1))),
        Node::Compare(c) => compared(*c, nth(operands, 0), nth(operands, 1)),
        Node::IsNull => Some(nth(operands, 0).is_null()),
        Node::In(_) => is_in(operands),
        Node::Between => {
            let a = nth(operands, 0);
            let above = compared(Comparison::AtLeast, a, nth(operands, 1));
            and_of(above, compared(Comparison::AtMost, a, nth(operands, 2)))
        }
        Node::Like(pieces) => like(nth(operands, 0), pieces.as_slice()),
        _ => None,
    }
}

// Whether the first operand is one of those behind it.
fn is_in(operands: &[Operand<'_>]) -> Option<bool>
    ensures { result ≡ is_one_of (operand (map operand_value operands.now) 0) (drop 1 (map operand_value operands.now)) }
{
    match operands.split_first() {
        Some((first, items)) => is_one_of(first.value(), items),
        None => Some(false),
    }
}

// Whether a value is one of some: yes where it equals one, and else unknown where a comparison is.
fn is_one_of(v: ValueRef<'_>, items: &[Operand<'_>]) -> Option<bool>
    ensures { result ≡ is_one_of (value_of_ref v.entry) (map operand_value items.now) }
{
    let mut found = Some(false);
    let mut left = items.len();
    while left > 0 {
        left -= 1;
        found = or_of(compared(Comparison::Equal, v, items[left].value()), found);
    }
    found
}
