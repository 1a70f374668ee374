ghost use Rattle.std.specs.Prelude.{◌≡◌, ℕ, List, true, IfOk};
ghost use Rattle.lk_postfix.specs.Postfix.{is_whole};
ghost use Rattle.lk_types.specs.FormulaNodes.{arity, formula_of};
ghost use Rattle.lk_expr_tree.specs.Grammar.{IsExprText};
ghost use Rattle.lk_expr_tree.specs.RawCode.{tree_of};
ghost use Rattle.lk_written.specs.Skeletons.{written_of};

use crate::calls::call_place;
use crate::names::add_reference;
use crate::nodes::add_nodes;
use lk_expr_tree::RawExpr;
use lk_objects::Written;
use lk_types::{Expr, Node};
use lk_val::{Items, NoMemory};
use std::alloc::Global;

/// An expression that a text spells, as it is written: its names from the left, the expression over their numbers, and where
/// its first unknown call stands.
pub(crate) fn written_of(alloc: Global, e: &RawExpr) -> Result<Written, NoMemory>
    requires spelled { (text : List ℕ) × IsExprText (tree_of e.now) text }
    ensures { IfOk result (λ written. written ≡ written_of (tree_of e.now)) }
{
    let raw = e.nodes();
    let mut references = Items::new(alloc);
    let mut nodes = Items::new(alloc);
    for node in raw {
        add_nodes(alloc, node, references.len(), &mut nodes)?;
        add_reference(alloc, node, &mut references)?;
    }
    let expr = whole_expr(nodes);
    let unknown_call = call_place(e)?;
    Ok(Written {
        references,
        expr,
        unknown_call,
    })
}

// The expression of nodes that build one.
fn whole_expr(nodes: Items<Node>) -> Expr
    requires { is_whole arity nodes ≡ true }
    ensures { result ≡ formula_of nodes }
{
    match Expr::from_nodes(nodes) {
        Some(expr) => expr,
        None => unreachable!(),
    }
}
