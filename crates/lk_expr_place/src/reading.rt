ghost use Rattle.std.specs.Prelude.{◌≡◌, Some, None, IfOk};
ghost use Rattle.lk_expr_tree.specs.Calls.{unknown_call};
ghost use Rattle.lk_expr_tree.specs.Grammar.{Tree};
ghost use Rattle.lk_expr_tree.specs.RawCode.{tree_of};
ghost use Rattle.lk_expr_place.specs.declared.judging.Grammar.TheVariants.{Expressions, Measures};
ghost use Rattle.lk_expr_place.specs.ExprTexts.{IfCall, IfSyntax, IsOfGrammar, IsTreeText};
ghost use Rattle.lk_expr_place.specs.SyntaxPlaces.{IsSyntaxPlace};

use crate::judging::Grammar;
use crate::places::syntax_place;
use lk_expr_text::{parse_expr, parse_measure};
use lk_expr_tree::{RawExpr, unknown_call};
use lk_val::NoMemory;
use std::alloc::Global;

/// Why a text is not read as an expression.
#[derive(Clone, Copy, PartialEq, Eq)]
pub enum ExprFault {
    /// The text is no expression. The place is the number of bytes before the fault.
    E1(u32),
    /// A call is of no known function, or has not as many arguments as it takes. The place is the number of bytes
    /// before the function's name.
    E2(u32),
    /// There is no memory for the expression, or its text is too long for the place to have 32 bits.
    NoMemory,
}

impl From<NoMemory> for ExprFault {
    ghost use Rattle.std.specs.Prelude.{◌≡◌};
    ghost use Rattle.lk_expr_place.specs.declared.reading.ExprFault.TheVariants as fault;

    ghost from_gives = { λ _ e. e ≡ fault.NoMemory };

    fn from(_: NoMemory) -> ExprFault {
        ExprFault::NoMemory
    }
}

/// Reads an expression; names stay unresolved. A text that is no expression is refused with the length of its longest
/// prefix that begins one, or with the first byte of a number that is out of range or too fine, where all before it
/// may stand (E1); and then one with a call of no known function, or with a wrong number of arguments, with the first
/// byte of the first such function's name (E2). (Looker, LookML reference: sql; lookd)
pub fn read_expr(alloc: Global, text: &[u8]) -> Result<RawExpr, ExprFault>
    // The text spells the expression, and each of its calls is known.
    ensures found { IfOk result (λ e. IsTreeText Expressions (tree_of e) text.now) }
    ensures known { IfOk result (λ e. unknown_call (tree_of e) ≡ None) }
    // It spells no other.
    ensures only { IfOk result (λ found. (e : Tree) → IsTreeText Expressions e text.now → e ≡ tree_of found) }
    // What is refused with E1 spells none, and with E2 one whose first unknown call is there.
    ensures refused { IfSyntax result (λ place. IsOfGrammar Expressions text.now → ⊥) }
    ensures place { IfSyntax result (IsSyntaxPlace (IsOfGrammar Expressions) text.now) }
    ensures call { IfCall result (λ place. (e : Tree) × IsTreeText Expressions e text.now × (unknown_call e ≡ Some place)) }
{
    match parse_expr(alloc, text)? {
        Some(e) => with_calls(e),
        None => Err(ExprFault::E1(fault_place(alloc, Grammar::Expressions, text)?)),
    }
}

/// Reads the expression of a measure of type number, by the smaller grammar of these; the same otherwise.
/// (Looker, LookML reference: type number; lookd)
pub fn read_measure(alloc: Global, text: &[u8]) -> Result<RawExpr, ExprFault>
    // The text spells the expression, and each of its calls is known.
    ensures found { IfOk result (λ e. IsTreeText Measures (tree_of e) text.now) }
    ensures known { IfOk result (λ e. unknown_call (tree_of e) ≡ None) }
    // It spells no other.
    ensures only { IfOk result (λ found. (e : Tree) → IsTreeText Measures e text.now → e ≡ tree_of found) }
    // What is refused with E1 spells none, and with E2 one whose first unknown call is there.
    ensures refused { IfSyntax result (λ place. IsOfGrammar Measures text.now → ⊥) }
    ensures place { IfSyntax result (IsSyntaxPlace (IsOfGrammar Measures) text.now) }
    ensures call { IfCall result (λ place. (e : Tree) × IsTreeText Measures e text.now × (unknown_call e ≡ Some place)) }
{
    match parse_measure(alloc, text)? {
        Some(e) => with_calls(e),
        None => Err(ExprFault::E1(fault_place(alloc, Grammar::Measures, text)?)),
    }
}

// The expression, where each of its calls is known.
fn with_calls(e: RawExpr) -> Result<RawExpr, ExprFault>
    ensures known { IfOk result (λ found. (found ≡ e) × (unknown_call (tree_of e) ≡ None)) }
    ensures call { IfCall result (λ place. unknown_call (tree_of e) ≡ Some place) }
    ensures read { IfSyntax result (λ place. ⊥) }
{
    match unknown_call(&e) {
        None => Ok(e),
        Some(place) => Err(ExprFault::E2(short_place(place)?)),
    }
}

/// The place of the fault in a text that is no expression of a grammar, which is that of E1: the number of bytes before it.
/// (lookd)
pub fn fault_place(alloc: Global, grammar: Grammar, text: &[u8]) -> Result<u32, NoMemory>
    ensures { IfOk result (IsSyntaxPlace (IsOfGrammar grammar) text.now) }
{
    short_place(syntax_place(alloc, grammar, text)?)
}

// A place in 32 bits.
fn short_place(place: usize) -> Result<u32, NoMemory>
    ensures { IfOk result (λ short. short ≡ place) }
{
    u32::try_from(place).map_err(|_| NoMemory)
}
