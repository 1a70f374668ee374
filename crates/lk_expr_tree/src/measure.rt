ghost use Rattle.std.specs.Prelude.{◌≡◌};
ghost use Rattle.std.specs.List.{list_all};
ghost use Rattle.lk_expr_tree.specs.RawCode.{tree_of};
ghost use Rattle.lk_expr_tree.specs.Calls.{is_arithmetic, is_measure};
ghost use Rattle.lk_expr_tree.specs.NodeCalls.{is_measure_node};

use crate::expr::RawExpr;
use crate::raw::{Joint, RawNode};
use lk_expr_token::{function_of, is_of_measures};

/// Whether an expression is one over measures: numbers, references, `+ - * /`, unary minus, brackets, NULLIF and
/// COALESCE alone. (Looker, LookML reference: type number; lookd)
pub fn is_measure(e: &RawExpr) -> bool
    ensures { result ≡ is_measure (tree_of e.now) }
{
    are_measure_nodes(e.nodes())
}

fn are_measure_nodes(nodes: &[RawNode]) -> bool
    ensures { result ≡ list_all is_measure_node nodes.now }
{
    nodes.iter().all(is_measure_node)
}

fn is_measure_node(node: &RawNode) -> bool
    ensures { result ≡ is_measure_node node.now }
{
    match node {
        RawNode::Number(_) | RawNode::Field(_) | RawNode::FieldOf(_, _) => true,
        RawNode::Group | RawNode::Negate => true,
        RawNode::Call(name, _, _) => is_of_measures(function_of(name.as_slice())),
        RawNode::Chain(joint) => is_arithmetic(*joint),
        _ => false,
    }
}

fn is_arithmetic(joint: Joint) -> bool
    ensures { result ≡ is_arithmetic joint }
{
    match joint {
        Joint::Plus | Joint::Minus | Joint::Times | Joint::Over => true,
        Joint::Or | Joint::And | Joint::Concat => false,
    }
}
