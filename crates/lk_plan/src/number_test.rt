// The conditions of tests on numbers.

ghost use Rattle.std.specs.Prelude.{◌≡◌, IfOk, fold, map};
ghost use Rattle.lk_plan.specs.Joining.{known_with};
ghost use Rattle.lk_plan.specs.TestConditions.{above_condition, below_condition, bound_condition, compares_with, is_nowhere, number_condition, range_condition};

use crate::building::{and_next, compare, is_null, no, or_known, within};
use lk_types::{Comparison, Edge, End, Expr, Test};
use lk_val::{NoMemory, Num, Value};
use std::alloc::Global;

pub(crate) fn number_condition(alloc: Global, x: &Expr, test: &Test) -> Result<Expr, NoMemory>
    ensures { IfOk result (λ e. e ≡ number_condition x.now test.now) }
{
    match test {
        Test::Null | Test::Empty => is_null(alloc, x),
        Test::Is(num) => compares_with(alloc, x, Comparison::Equal, *num),
        Test::Compare(comparisons) => compared_condition(alloc, x, comparisons.as_slice()),
        Test::To(low, high) => {
            let low = bound_condition(alloc, x, Comparison::AtLeast, *low)?;
            let high = bound_condition(alloc, x, Comparison::AtMost, *high)?;
            within(alloc, x, low, high)
        }
        Test::Range(low, high) => range_condition(alloc, x, *low, *high),
        _ => no(alloc),
    }
}

fn compares_with(
    alloc: Global,
    x: &Expr,
    comparison: Comparison,
    num: Num,
) -> Result<Expr, NoMemory>
    ensures { IfOk result (λ e. e ≡ compares_with x.now comparison num) }
{
    compare(alloc, comparison, x, Value::Num(num))
}

// All of some comparisons.
fn compared_condition(
    alloc: Global,
    x: &Expr,
    comparisons: &[(Comparison, Num)],
) -> Result<Expr, NoMemory>
    ensures { IfOk result (λ e. e ≡ known_with x.now (map (λ c. compares_with x.now c.0 c.1) comparisons.now)) }
{
    let mut all = None;
    for (comparison, num) in comparisons {
        let next = compares_with(alloc, x, *comparison, *num)?;
        all = Some(and_next(all, next)?);
    }
    or_known(alloc, all, x)
}

fn bound_condition(
    alloc: Global,
    x: &Expr,
    comparison: Comparison,
    bound: Option<Num>,
) -> Result<Option<Expr>, NoMemory>
    ensures { IfOk result (λ e. e ≡ bound_condition x.now comparison bound) }
{
    match bound {
        None => Ok(None),
        Some(num) => Ok(Some(compares_with(alloc, x, comparison, num)?)),
    }
}

// An interval of numbers.
fn range_condition(alloc: Global, x: &Expr, low: End, high: End) -> Result<Expr, NoMemory>
    ensures { IfOk result (λ e. e ≡ range_condition x.now low high) }
{
    if is_nowhere(low.edge, high.edge) {
        return no(alloc);
    }
    let above = above_condition(alloc, x, low)?;
    let below = below_condition(alloc, x, high)?;
    within(alloc, x, above, below)
}

// Whether no number is between two edges, whatever they are at.
fn is_nowhere(low: Edge, high: Edge) -> bool
    ensures { result ≡ is_nowhere low high }
{
    match (low, high) {
        (Edge::Highest, _) | (_, Edge::Lowest) => true,
        _ => false,
    }
}

fn above_condition(alloc: Global, x: &Expr, end: End) -> Result<Option<Expr>, NoMemory>
    ensures { IfOk result (λ e. e ≡ above_condition x.now end.edge end.closed) }
{
    match end.edge {
        Edge::At(num) if end.closed => Ok(Some(compares_with(alloc, x, Comparison::AtLeast, num)?)),
        Edge::At(num) => Ok(Some(compares_with(alloc, x, Comparison::Greater, num)?)),
        Edge::Lowest | Edge::Highest => Ok(None),
    }
}

fn below_condition(alloc: Global, x: &Expr, end: End) -> Result<Option<Expr>, NoMemory>
    ensures { IfOk result (λ e. e ≡ below_condition x.now end.edge end.closed) }
{
    match end.edge {
        Edge::At(num) if end.closed => Ok(Some(compares_with(alloc, x, Comparison::AtMost, num)?)),
        Edge::At(num) => Ok(Some(compares_with(alloc, x, Comparison::Less, num)?)),
        Edge::Lowest | Edge::Highest => Ok(None),
    }
}
