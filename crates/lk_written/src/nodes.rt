ghost use Rattle.std.specs.Prelude.{◌≡◌, ◌++◌, IfOk};
ghost use Rattle.lk_val.specs.Numbers.{num_of};
ghost use Rattle.lk_types.specs.declared.expr.Node.TheVariants.{Column};
ghost use Rattle.lk_expr_token.specs.Functions.{function_of};
ghost use Rattle.lk_written.specs.Skeletons.{number_value};
ghost use Rattle.lk_written.specs.SkeletonNodes.{call_node, denied, joint_node, skeleton_nodes};

use lk_eval::read_pattern;
use lk_expr_token::{Function, function_of};
use lk_expr_tree::{Joint, RawNode};
use lk_types::{Arithmetic, Node};
use lk_val::{Bytes, Items, NoMemory, Num, Value};
use std::alloc::Global;

/// Adds what a node stands for: a name, of which so many stand before it, the column of that number; a pair of brackets
/// nothing, and a test that is denied two nodes.
pub(crate) fn add_nodes(
    alloc: Global,
    node: &RawNode,
    number: usize,
    nodes: &mut Items<Node>,
) -> Result<(), NoMemory>
    ensures { IfOk result (λ _. nodes.new ≡ nodes.old ++ skeleton_nodes number node.now) }
{
    match node {
        RawNode::Number(digits) => nodes.push(Node::Literal(number_value(digits))),
        RawNode::Text(text) => nodes.push(Node::Literal(Value::Text(text.copy(alloc)?))),
        RawNode::Truth(truth) => nodes.push(Node::Literal(Value::Truth(*truth))),
        RawNode::Null => nodes.push(Node::Literal(Value::Null)),
        RawNode::Name(_, _) | RawNode::Column(_) => nodes.push(column(number)?),
        RawNode::Field(_) | RawNode::FieldOf(_, _) => nodes.push(column(number)?),
        RawNode::Group => Ok(()),
        RawNode::Call(name, _, count) => nodes.push(call_node(name, *count)),
        RawNode::Case(count) | RawNode::CaseElse(count) => nodes.push(Node::Case(*count)),
        RawNode::Negate => nodes.push(Node::Negate),
        RawNode::Chain(joint) => nodes.push(joint_node(*joint)),
        RawNode::Compare(comparison) => nodes.push(Node::Compare(*comparison)),
        RawNode::IsNull(negated) => add_test(nodes, *negated, Node::IsNull),
        RawNode::In(negated, count) => add_test(nodes, *negated, Node::In(*count)),
        RawNode::Between(negated) => add_test(nodes, *negated, Node::Between),
        RawNode::Like(negated, pattern) => {
            add_test(nodes, *negated, Node::Like(read_pattern(alloc, pattern)?))
        }
        RawNode::Not => nodes.push(Node::Not),
    }
}

fn add_test(nodes: &mut Items<Node>, negated: bool, test: Node) -> Result<(), NoMemory>
    ensures { IfOk result (λ _. nodes.new ≡ nodes.old ++ denied negated test) }
{
    nodes.push(test)?;
    if negated {
        nodes.push(Node::Not)?;
    }
    Ok(())
}

fn number_value(digits: &Bytes) -> Value
    ensures { result ≡ number_value (num_of digits.now) }
{
    match Num::read(digits.as_slice()) {
        Ok(number) => Value::Num(number),
        Err(_) => Value::Null,
    }
}

fn column(number: usize) -> Result<Node, NoMemory>
    ensures { IfOk result (λ made. made ≡ Column 0 number) }
{
    Ok(Node::Column(0, short_number(number)?))
}

// A number in 32 bits.
pub(crate) fn short_number(number: usize) -> Result<u32, NoMemory>
    ensures { IfOk result (λ short. short ≡ number) }
{
    u32::try_from(number).map_err(|_| NoMemory)
}

fn joint_node(joint: Joint) -> Node
    ensures { result ≡ joint_node joint }
{
    match joint {
        Joint::Or => Node::Or,
        Joint::And => Node::And,
        Joint::Plus => Node::Number(Arithmetic::Plus),
        Joint::Minus => Node::Number(Arithmetic::Minus),
        Joint::Concat => Node::Concat,
        Joint::Times => Node::Number(Arithmetic::Times),
        Joint::Over => Node::Number(Arithmetic::Over),
    }
}

// A call of so many arguments. One that is not known stands as COALESCE of all of them.
fn call_node(name: &Bytes, count: usize) -> Node
    ensures { result ≡ call_node (function_of name.now) count }
{
    match function_of(name.as_slice()) {
        Some(Function::NullIf) if count == 2 => Node::NullIf,
        Some(Function::Lower) if count == 1 => Node::Lower,
        Some(Function::Upper) if count == 1 => Node::Upper,
        _ => Node::Coalesce(count),
    }
}
