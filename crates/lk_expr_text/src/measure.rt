ghost use Rattle.std.specs.Prelude.{◌≡◌, Some, IfOk, IfSome, option_map};
ghost use Rattle.lk_expr_tree.specs.RawCode.{tree_of};
ghost use Rattle.lk_expr_tree.specs.Grammar.{Tree};
ghost use Rattle.lk_expr_tree.specs.Calls.{IsMeasureText, is_measure};

use crate::reading::parse_expr;
use lk_expr_tree::{RawExpr, is_measure};
use lk_val::NoMemory;
use std::alloc::Global;

/// The expression over measures that a text spells, and none where it spells none: numbers, references, `+ - * /`,
/// unary minus, brackets, NULLIF and COALESCE. (Looker, LookML reference: type number; lookd)
pub fn parse_measure(alloc: Global, text: &[u8]) -> Result<Option<RawExpr>, NoMemory>
    // What is read is spelled so.
    ensures found { IfOk result (λ found. IfSome found (λ e. IsMeasureText (tree_of e) text.now)) }
    // What is spelled is read, so a text spells one such expression.
    ensures every { IfOk result (λ found. (e : Tree) → IsMeasureText e text.now → option_map tree_of found ≡ Some e) }
{
    match parse_expr(alloc, text)? {
        Some(e) if is_measure(&e) => Ok(Some(e)),
        _ => Ok(None),
    }
}
