ghost use Rattle.std.specs.Prelude.{◌≡◌, IfOk, map};
ghost use Rattle.std.specs.List.{fold};
ghost use Rattle.lk_types.specs.Formula.{And, Or};
ghost use Rattle.lk_plan.specs.Joining.{joined, listed, with_next};
ghost use Rattle.lk_plan.specs.TestConditions.{test_condition};
ghost use Rattle.lk_plan.specs.FilterConditions.{exclude_condition, filter_condition};

use crate::building::{and_next, is_null, not, or, or_next};
use crate::test::test_condition;
use lk_types::{Expr, Filter, Kind, Test};
use lk_val::NoMemory;
use std::alloc::Global;

/// The condition of a filter over what is filtered, an expression of a kind: the includes joined by OR, and the excludes
/// by AND; none where the filter has neither. A relative date that is not placed is met by no value. (Looker, filter
/// expressions)
pub fn filter_condition(
    alloc: Global,
    kind: Kind,
    x: &Expr,
    filter: &Filter,
) -> Result<Option<Expr>, NoMemory>
    ensures { IfOk result (λ e. e ≡ filter_condition kind x.now filter.now) }
{
    let include = include_condition(alloc, kind, x, filter.include.as_slice())?;
    let exclude = excludes_condition(alloc, kind, x, filter.exclude.as_slice())?;
    with_some(include, exclude)
}

// A condition more, if there is one, joined by AND to those before it.
pub(crate) fn with_some(before: Option<Expr>, e: Option<Expr>) -> Result<Option<Expr>, NoMemory>
    ensures { IfOk result (λ all. all ≡ fold (with_next And) before (listed e)) }
{
    match e {
        None => Ok(before),
        Some(e) => Ok(Some(and_next(before, e)?)),
    }
}

// Some of the includes is met, if there are any.
fn include_condition(
    alloc: Global,
    kind: Kind,
    x: &Expr,
    tests: &[Test],
) -> Result<Option<Expr>, NoMemory>
    ensures { IfOk result (λ e. e ≡ joined Or (map (test_condition kind x.now) tests.now)) }
{
    let mut some = None;
    for test in tests {
        let next = test_condition(alloc, kind, x, test)?;
        some = Some(or_next(some, next)?);
    }
    Ok(some)
}

// None of the excludes is met, if there are any.
fn excludes_condition(
    alloc: Global,
    kind: Kind,
    x: &Expr,
    tests: &[Test],
) -> Result<Option<Expr>, NoMemory>
    ensures { IfOk result (λ e. e ≡ joined And (map (exclude_condition kind x.now) tests.now)) }
{
    let mut all = None;
    for test in tests {
        let next = exclude_condition(alloc, kind, x, test)?;
        all = Some(and_next(all, next)?);
    }
    Ok(all)
}

// An exclude is not met: null passes it, unless it is one for null.
fn exclude_condition(alloc: Global, kind: Kind, x: &Expr, test: &Test) -> Result<Expr, NoMemory>
    ensures { IfOk result (λ e. e ≡ exclude_condition kind x.now test.now) }
{
    let unmet = not(test_condition(alloc, kind, x, test)?)?;
    match test {
        Test::Null | Test::Empty => Ok(unmet),
        _ => or(is_null(alloc, x)?, unmet),
    }
}
