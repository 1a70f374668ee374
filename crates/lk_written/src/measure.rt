ghost use Rattle.std.specs.Prelude.{◌≡◌, ℕ, List, true, IfOk};
ghost use Rattle.lk_postfix.specs.Postfix.{is_whole};
ghost use Rattle.lk_types.specs.CalculationNodes.{arity, calculation_of};
ghost use Rattle.lk_expr_tree.specs.Calls.{IsMeasureText};
ghost use Rattle.lk_expr_tree.specs.RawCode.{tree_of};
ghost use Rattle.lk_written.specs.Calculations.{written_number_of};

use crate::calls::call_place;
use crate::measure_nodes::add_measure_nodes;
use crate::names::add_reference;
use lk_expr_tree::RawExpr;
use lk_objects::WrittenNumber;
use lk_types::{NumExpr, NumNode};
use lk_val::{Items, NoMemory};
use std::alloc::Global;

/// The expression of a measure of type number as it is written: its names from the left, the expression over their numbers,
/// and where its first unknown call stands.
pub(crate) fn written_number_of(alloc: Global, e: &RawExpr) -> Result<WrittenNumber, NoMemory>
    requires spelled { (text : List ℕ) × IsMeasureText (tree_of e.now) text }
    ensures { IfOk result (λ written. written ≡ written_number_of (tree_of e.now)) }
{
    let raw = e.nodes();
    let mut references = Items::new(alloc);
    let mut nodes = Items::new(alloc);
    for node in raw {
        add_measure_nodes(node, references.len(), &mut nodes)?;
        add_reference(alloc, node, &mut references)?;
    }
    let expr = whole_expr(nodes);
    let unknown_call = call_place(e)?;
    Ok(WrittenNumber {
        references,
        expr,
        unknown_call,
    })
}

// The expression of nodes that build one.
fn whole_expr(nodes: Items<NumNode>) -> NumExpr
    requires { is_whole arity nodes ≡ true }
    ensures { result ≡ calculation_of nodes }
{
    match NumExpr::from_nodes(nodes) {
        Some(expr) => expr,
        None => unreachable!(),
    }
}
