// The conditions of the tests of all kinds.

ghost use Rattle.std.specs.Prelude.{◌≡◌, IfOk};
ghost use Rattle.lk_types.specs.Formula.{Like};
ghost use Rattle.lk_plan.specs.TestConditions.{test_condition, text_condition, truth_condition};

use crate::building::{compare, is_null, no, or};
use crate::date_test::date_condition;
use crate::number_test::number_condition;
use lk_types::{Comparison, Expr, Kind, Node, Piece, Test};
use lk_val::{Items, NoMemory, Text, Value};
use std::alloc::Global;

pub(crate) fn test_condition(
    alloc: Global,
    kind: Kind,
    x: &Expr,
    test: &Test,
) -> Result<Expr, NoMemory>
    ensures { IfOk result (λ e. e ≡ test_condition kind x.now test.now) }
{
    match kind {
        Kind::Text => text_condition(alloc, x, test),
        Kind::Number => number_condition(alloc, x, test),
        Kind::Truth => truth_condition(alloc, x, test),
        Kind::Day | Kind::Moment => date_condition(alloc, kind, x, test),
    }
}

fn text_condition(alloc: Global, x: &Expr, test: &Test) -> Result<Expr, NoMemory>
    ensures { IfOk result (λ e. e ≡ text_condition x.now test.now) }
{
    match test {
        Test::Null => is_null(alloc, x),
        Test::Empty => {
            let empty = Value::Text(Text::new(alloc));
            let null = is_null(alloc, x)?;
            or(null, compare(alloc, Comparison::Equal, x, empty)?)
        }
        Test::Like(pieces) => like(alloc, x, pieces),
        _ => no(alloc),
    }
}

fn like(alloc: Global, x: &Expr, pieces: &Items<Piece>) -> Result<Expr, NoMemory>
    ensures { IfOk result (λ e. e ≡ Like x.now pieces.now) }
{
    let pieces = pieces.copy_plain(alloc)?;
    Expr::unary(Node::Like(pieces), x.copy(alloc)?)
}

fn truth_condition(alloc: Global, x: &Expr, test: &Test) -> Result<Expr, NoMemory>
    ensures { IfOk result (λ e. e ≡ truth_condition x.now test.now) }
{
    match test {
        Test::Null | Test::Empty => is_null(alloc, x),
        Test::Truth(truth) => compare(alloc, Comparison::Equal, x, Value::Truth(*truth)),
        _ => no(alloc),
    }
}
