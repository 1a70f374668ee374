ghost use Rattle.std.specs.Prelude.{◌≡◌, ◌++◌, IfOk};
ghost use Rattle.lk_val.specs.Numbers.{num_of};
ghost use Rattle.lk_expr_token.specs.Functions.{function_of};
ghost use Rattle.lk_written.specs.MeasureNodes.{call_node, joint_arithmetic, measure_nodes, number_node};

use crate::nodes::short_number;
use lk_expr_token::{Function, function_of};
use lk_expr_tree::{Joint, RawNode};
use lk_types::{Arithmetic, NumNode};
use lk_val::{Bytes, Items, NoMemory, Num};

/// Adds what a node of a measure of type number stands for: a name, of which so many stand before it, the measure of that
/// number, and a pair of brackets nothing.
pub(crate) fn add_measure_nodes(
    node: &RawNode,
    number: usize,
    nodes: &mut Items<NumNode>,
) -> Result<(), NoMemory>
    ensures { IfOk result (λ _. nodes.new ≡ nodes.old ++ measure_nodes number node.now) }
{
    match node {
        RawNode::Number(digits) => nodes.push(number_node(digits)),
        RawNode::Field(_) | RawNode::FieldOf(_, _) => {
            nodes.push(NumNode::Measure(short_number(number)?))
        }
        RawNode::Call(name, _, count) => nodes.push(call_node(name, *count)),
        RawNode::Negate => nodes.push(NumNode::Negate),
        RawNode::Chain(joint) => match joint_arithmetic(*joint) {
            Some(operation) => nodes.push(NumNode::Number(operation)),
            None => Ok(()),
        },
        // Brackets; and no measure has another.
        _ => Ok(()),
    }
}

fn number_node(digits: &Bytes) -> NumNode
    ensures { result ≡ number_node (num_of digits.now) }
{
    match Num::read(digits.as_slice()) {
        Ok(number) => NumNode::Literal(number),
        Err(_) => NumNode::Coalesce(0),
    }
}

// A call of a function of measures; no measure has another. One with a wrong number of arguments stands as COALESCE of all
// of them.
fn call_node(name: &Bytes, count: usize) -> NumNode
    ensures { result ≡ call_node (function_of name.now) count }
{
    match function_of(name.as_slice()) {
        Some(Function::NullIf) if count == 2 => NumNode::NullIf,
        _ => NumNode::Coalesce(count),
    }
}

fn joint_arithmetic(joint: Joint) -> Option<Arithmetic>
    ensures { result ≡ joint_arithmetic joint }
{
    match joint {
        Joint::Plus => Some(Arithmetic::Plus),
        Joint::Minus => Some(Arithmetic::Minus),
        Joint::Times => Some(Arithmetic::Times),
        Joint::Over => Some(Arithmetic::Over),
        Joint::Or | Joint::And | Joint::Concat => None,
    }
}
