ghost use Rattle.std.specs.Prelude.{◌≡◌, true, option_map};
ghost use Rattle.lk_postfix.specs.Postfix.{is_whole};
ghost use Rattle.lk_types.specs.FormulaNodes.{arity, formula_of};
ghost use Rattle.lk_dated.specs.Dated.{text_of};
ghost use Rattle.lk_dated.specs.DatedNodes.{text_of_node};
ghost use Rattle.lk_dated.specs.Sides.{readings_of};

use crate::side::{Readings, readings_of_text};
use lk_types::{Expr, Node};
use lk_val::{Text, Value};

/// What an expression writes where it is a text literal; none of any other expression. (lookd)
pub fn readings_of(e: &Expr) -> Option<Readings>
    ensures { result ≡ readings_of e.now }
{
    match text_of(e.nodes()) {
        Some(text) => Some(readings_of_text(text.as_bytes())),
        None => None,
    }
}

// The text of the expression of some nodes, where it is a text literal: only that has a literal for its last node.
fn text_of(nodes: &[Node]) -> Option<&Text>
    requires { is_whole arity nodes.now ≡ true }
    ensures { option_map (λ text. text.now) result ≡ text_of (formula_of nodes.now) }
{
    match nodes.split_last() {
        Some((last, _)) => text_of_node(last),
        None => None,
    }
}

// The text of a node, where it is a text literal.
pub(crate) fn text_of_node(node: &Node) -> Option<&Text>
    ensures { option_map (λ text. text.now) result ≡ text_of_node node.now }
{
    match node {
        Node::Literal(Value::Text(text)) => Some(text),
        _ => None,
    }
}
