ghost use Rattle.std.specs.Prelude.{◌≡◌, IfOk};
ghost use Rattle.lk_expr_tree.specs.Calls.{unknown_call};
ghost use Rattle.lk_expr_tree.specs.RawCode.{tree_of};

use crate::nodes::short_number;
use lk_expr_tree::{RawExpr, unknown_call};
use lk_val::NoMemory;

/// Where the name begins of the first call that is of no known function, or has not as many arguments as it takes.
pub(crate) fn call_place(e: &RawExpr) -> Result<Option<u32>, NoMemory>
    ensures { IfOk result (λ place. place ≡ unknown_call (tree_of e.now)) }
{
    match unknown_call(e) {
        None => Ok(None),
        Some(place) => Ok(Some(short_number(place)?)),
    }
}
