ghost use Rattle.std.specs.Prelude.{◌≡◌, Some, IfOk, IfSome, option_map};
ghost use Rattle.lk_expr_tree.specs.Grammar.{IsExprText, Tree};
ghost use Rattle.lk_expr_tree.specs.RawCode.{tree_of};
ghost use Rattle.lk_expr_text.specs.Parsing.{tree_in};

use crate::parser::{Precedence, parse_chain};
use lk_expr_token::{Token, read_tokens};
use lk_expr_tree::RawExpr;
use lk_val::NoMemory;
use std::alloc::Global;

// How deep brackets, calls, NOT, signs and CASE may nest.
const DEPTH: u8 = 100;

/// The expression that a text spells, and none where it spells none. Names are unresolved, and functions are any
/// names with one argument or more. (Looker, LookML reference: sql; lookd)
pub fn parse_expr(alloc: Global, text: &[u8]) -> Result<Option<RawExpr>, NoMemory>
    // What is read is spelled so.
    ensures found { IfOk result (λ found. IfSome found (λ e. IsExprText (tree_of e) text.now)) }
    // What is spelled is read, so a text spells one expression.
    ensures every { IfOk result (λ found. (e : Tree) → IsExprText e text.now → option_map tree_of found ≡ Some e) }
{
    match read_tokens(alloc, text)? {
        Some(tokens) => parse_all(alloc, tokens.as_slice()),
        None => Ok(None),
    }
}

// The expression of all the tokens.
fn parse_all(alloc: Global, tokens: &[Token]) -> Result<Option<RawExpr>, NoMemory>
    ensures { IfOk result (λ found. option_map tree_of found ≡ tree_in tokens.now) }
{
    match parse_chain(alloc, DEPTH, Precedence::Or, tokens)? {
        Some((tree, rest)) if rest.is_empty() => Ok(Some(tree)),
        _ => Ok(None),
    }
}
