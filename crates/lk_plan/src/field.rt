ghost use Rattle.std.specs.Prelude.{◌≡◌, true, IfOk};
ghost use Rattle.lk_semantics.specs.Resolved.{has_tiers};
ghost use Rattle.lk_plan.specs.FieldFormulas.{field_formula, plain_formula};

use crate::building::no;
use crate::tier::tier_formula;
use lk_types::{Expr, Field, Kind, Node, Shape};
use lk_val::NoMemory;
use std::alloc::Global;

/// What is filtered of a field, as an expression: an unknown yes or no is no, a tier is its lower bound, or the least
/// number below the first, and a timeframe its value. (Looker, LookML reference: type yesno, tiers, timeframes)
pub fn field_formula(alloc: Global, field: &Field) -> Result<Expr, NoMemory>
    requires { has_tiers field.now.shape ≡ true }
    ensures { IfOk result (λ e. e ≡ field_formula field.now) }
{
    match &field.shape {
        Shape::Plain => plain_formula(alloc, field.kind, &field.expr),
        Shape::Tier(bounds) => tier_formula(alloc, &field.expr, bounds.as_slice()),
        Shape::Frame(_, frame) => Expr::unary(Node::Framed(*frame), field.expr.copy(alloc)?),
    }
}

fn plain_formula(alloc: Global, kind: Kind, e: &Expr) -> Result<Expr, NoMemory>
    ensures { IfOk result (λ made. made ≡ plain_formula kind e.now) }
{
    let copy = e.copy(alloc)?;
    match kind {
        Kind::Truth => Expr::binary(Node::Coalesce(2), copy, no(alloc)?),
        _ => Ok(copy),
    }
}
