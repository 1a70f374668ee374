ghost use Rattle.std.specs.Prelude.{◌≡◌};
ghost use Rattle.lk_expr_tree.specs.RawCode.{tree_of};
ghost use Rattle.lk_expr_tree.specs.Calls.{place_unless, unknown_call};
ghost use Rattle.lk_expr_tree.specs.NodeCalls.{is_taken_count, unknown_node};

use crate::expr::RawExpr;
use crate::raw::RawNode;
use lk_expr_token::{Function, function_of};
use lk_postfix::TakesOperands;

/// Where the name begins of the first call that is of no known function, or has not as many arguments as it takes: a
/// byte of the text. COALESCE takes one or more, NULLIF two, LOWER and UPPER one. It takes no memory. (lookd)
pub fn unknown_call(e: &RawExpr) -> Option<usize>
    ensures { result ≡ unknown_call (tree_of e.now) }
{
    // From the last node on, a call comes before its arguments, and they come from the last one on. So a call that is
    // met later stands further in front, but for the arguments of the one that was found: those are passed over.
    let mut found = None;
    let mut passed_over = 0;
    let nodes = e.nodes();
    for index in (0..nodes.len()).rev() {
        let node = &nodes[index];
        if passed_over > 0 {
            passed_over = passed_over - 1 + node.arity();
        } else if let Some(place) = unknown_node(node) {
            found = Some(place);
            passed_over = node.arity();
        }
    }
    found
}

// Where the node's own call stands, if it is unknown.
fn unknown_node(node: &RawNode) -> Option<usize>
    ensures { result ≡ unknown_node node.now }
{
    match node {
        RawNode::Call(name, place, count) => {
            place_unless(is_taken(function_of(name.as_slice()), *count), *place)
        }
        _ => None,
    }
}

fn place_unless(is_known: bool, place: usize) -> Option<usize>
    ensures { result ≡ place_unless is_known place }
{
    if is_known { None } else { Some(place) }
}

// Whether a function takes so many arguments; a call has one at least.
fn is_taken(function: Option<Function>, count: usize) -> bool
    ensures { result ≡ is_taken_count function count }
{
    match function {
        Some(Function::Coalesce) => true,
        Some(Function::NullIf) => count == 2,
        Some(Function::Lower | Function::Upper) => count < 2,
        None => false,
    }
}
