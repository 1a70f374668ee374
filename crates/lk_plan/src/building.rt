// Expressions of few operands, and conditions that are joined to the left.

ghost use Rattle.std.specs.Prelude.{◌≡◌, IfOk, Some};
ghost use Rattle.lk_val.specs.declared.value.Value.TheVariants as value;
ghost use Rattle.lk_types.specs.Formula.{And, Compare, IsNull, Literal, Not, Or};
ghost use Rattle.lk_plan.specs.Joining.{no, or_else, with_next, within, yes};

use lk_types::{Comparison, Expr, Node};
use lk_val::{NoMemory, Value};
use std::alloc::Global;

pub(crate) fn literal(alloc: Global, value: Value) -> Result<Expr, NoMemory>
    ensures { IfOk result (λ e. e ≡ Literal value) }
{
    Expr::leaf(alloc, Node::Literal(value))
}

pub(crate) fn yes(alloc: Global) -> Result<Expr, NoMemory>
    ensures { IfOk result (λ e. e ≡ yes) }
{
    literal(alloc, Value::Truth(true))
}

pub(crate) fn no(alloc: Global) -> Result<Expr, NoMemory>
    ensures { IfOk result (λ e. e ≡ no) }
{
    literal(alloc, Value::Truth(false))
}

pub(crate) fn not(e: Expr) -> Result<Expr, NoMemory>
    ensures { IfOk result (λ made. made ≡ Not e) }
{
    Expr::unary(Node::Not, e)
}

pub(crate) fn and(a: Expr, b: Expr) -> Result<Expr, NoMemory>
    ensures { IfOk result (λ e. e ≡ And a b) }
{
    Expr::binary(Node::And, a, b)
}

pub(crate) fn or(a: Expr, b: Expr) -> Result<Expr, NoMemory>
    ensures { IfOk result (λ e. e ≡ Or a b) }
{
    Expr::binary(Node::Or, a, b)
}

pub(crate) fn is_null(alloc: Global, x: &Expr) -> Result<Expr, NoMemory>
    ensures { IfOk result (λ e. e ≡ IsNull x.now) }
{
    Expr::unary(Node::IsNull, x.copy(alloc)?)
}

// The comparison of an expression with a value.
pub(crate) fn compare(
    alloc: Global,
    comparison: Comparison,
    x: &Expr,
    value: Value,
) -> Result<Expr, NoMemory>
    ensures { IfOk result (λ e. e ≡ Compare comparison x.now (Literal value)) }
{
    let copy = x.copy(alloc)?;
    Expr::binary(Node::Compare(comparison), copy, literal(alloc, value)?)
}

// One condition more, joined by AND to those before it.
pub(crate) fn and_next(before: Option<Expr>, e: Expr) -> Result<Expr, NoMemory>
    ensures { IfOk result (λ made. Some made ≡ with_next And before e) }
{
    match before {
        None => Ok(e),
        Some(before) => and(before, e),
    }
}

// One condition more, joined by OR to those before it.
pub(crate) fn or_next(before: Option<Expr>, e: Expr) -> Result<Expr, NoMemory>
    ensures { IfOk result (λ made. Some made ≡ with_next Or before e) }
{
    match before {
        None => Ok(e),
        Some(before) => or(before, e),
    }
}

// The condition, if there is one, and else that an expression is not null.
pub(crate) fn or_known(alloc: Global, e: Option<Expr>, x: &Expr) -> Result<Expr, NoMemory>
    ensures { IfOk result (λ made. made ≡ or_else e (Not (IsNull x.now))) }
{
    match e {
        None => not(is_null(alloc, x)?),
        Some(e) => Ok(e),
    }
}

// The two bounds of an expression, of which each may be left out.
pub(crate) fn within(
    alloc: Global,
    x: &Expr,
    low: Option<Expr>,
    high: Option<Expr>,
) -> Result<Expr, NoMemory>
    ensures { IfOk result (λ e. e ≡ within x.now low high) }
{
    let bounds = match high {
        None => low,
        Some(high) => Some(and_next(low, high)?),
    };
    or_known(alloc, bounds, x)
}
