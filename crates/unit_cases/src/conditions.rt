ghost use Rattle.std.specs.Prelude.{◌≡◌, true};
ghost use Rattle.lk_semantics.specs.Resolved.{has_tiers};

use crate::fault::CaseFault;
use crate::filters::{NOON, filter_of};
use crate::printing::printed;
use crate::subject::Subject;
use lk_filter::{FilterKind, place};
use lk_plan::{field_formula, filter_condition};
use lk_types::{Expr, Field, Filter, Kind};
use std::alloc::Global;

/// Adds the condition of a filter on what is named, over the column x. Relative dates are placed at noon of Saturday
/// 2024-03-02.
pub fn add_condition(
    alloc: Global,
    name: &str,
    text: &str,
    line: &mut String,
) -> Result<(), CaseFault> {
    let subject = Subject::of(name)?;
    let filter = filter_of(alloc, filter_kind(subject.kind()), text)?;
    let placed = place(alloc, &filter, NOON)?;
    add_on(alloc, subject, &placed, line)
}

// Each of these functions owns one part, since a function that lets go of several is dear to prove.
fn add_on(
    alloc: Global,
    subject: Subject,
    filter: &Filter,
    line: &mut String,
) -> Result<(), CaseFault> {
    let field = subject.field(alloc)?;
    add_on_field(alloc, &field, filter, line)
}

fn add_on_field(
    alloc: Global,
    field: &Field,
    filter: &Filter,
    line: &mut String,
) -> Result<(), CaseFault>
    requires { has_tiers field.now.shape ≡ true }
{
    let x = field_formula(alloc, field)?;
    add_over(alloc, field.kind, &x, filter, line)
}

fn add_over(
    alloc: Global,
    kind: Kind,
    x: &Expr,
    filter: &Filter,
    line: &mut String,
) -> Result<(), CaseFault> {
    match filter_condition(alloc, kind, x, filter)? {
        Some(e) => Ok(line.push_str(printed(alloc, &e)?.as_str())?),
        None => Ok(line.push_str("all pass")?),
    }
}

fn filter_kind(kind: Kind) -> FilterKind {
    match kind {
        Kind::Text => FilterKind::Text,
        Kind::Number => FilterKind::Number,
        Kind::Truth => FilterKind::Truth,
        Kind::Day | Kind::Moment => FilterKind::Date,
    }
}
