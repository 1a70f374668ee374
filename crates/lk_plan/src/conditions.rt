// The conditions of a bound query.

ghost use Rattle.std.specs.Prelude.{◌≡◌, true, IfOk};
ghost use Rattle.std.specs.List.{fold};
ghost use Rattle.lk_types.specs.Formula.{And};
ghost use Rattle.lk_semantics.specs.Rows.{field_at};
ghost use Rattle.lk_plan.specs.Joining.{or_else, with_next, yes};
ghost use Rattle.lk_plan.specs.Conditions.{filter_conditions, have_tiers, passing_condition, visible_condition};
ghost use Rattle.lk_plan.specs.FieldFormulas.{field_formula};
ghost use Rattle.lk_plan.specs.FilterConditions.{filter_condition};

use crate::building::{literal, yes};
use crate::field::field_formula;
use crate::filter::{filter_condition, with_some};
use lk_types::{Bound, Explore, Expr, Filter, Kind};
use lk_val::{Copied, NoMemory, Value};
use std::alloc::Global;

// Which rows the caller may see.
pub(crate) fn visible_condition(alloc: Global, x: &Explore, b: &Bound) -> Result<Expr, NoMemory>
    requires { have_tiers x.now ≡ true }
    ensures { IfOk result (λ e. e ≡ visible_condition x.now b.now) }
{
    let all = with_filters(alloc, x, None, b.access.as_slice())?;
    or_yes(alloc, all)
}

// Which of them the query counts.
pub(crate) fn passing_condition(alloc: Global, x: &Explore, b: &Bound) -> Result<Expr, NoMemory>
    requires { have_tiers x.now ≡ true }
    ensures { IfOk result (λ e. e ≡ passing_condition x.now b.now) }
{
    let hidden = Copied::copied(&x.always_where, alloc)?;
    let all = with_filters(alloc, x, hidden, b.rows.as_slice())?;
    or_yes(alloc, all)
}

// The condition, if there is one, and else that all rows pass.
fn or_yes(alloc: Global, e: Option<Expr>) -> Result<Expr, NoMemory>
    ensures { IfOk result (λ made. made ≡ or_else e yes) }
{
    match e {
        None => yes(alloc),
        Some(e) => Ok(e),
    }
}

// A condition, if there is one, with those of some filters behind it.
fn with_filters(
    alloc: Global,
    x: &Explore,
    before: Option<Expr>,
    filters: &[(u32, Filter)],
) -> Result<Option<Expr>, NoMemory>
    requires { have_tiers x.now ≡ true }
    ensures { IfOk result (λ all. all ≡ fold (with_next And) before (filter_conditions x.now filters.now)) }
{
    let mut all = before;
    for (field, filter) in filters {
        let next = condition_on(alloc, x, *field, filter)?;
        all = with_some(all, next)?;
    }
    Ok(all)
}

// The condition of a filter on the field of a number, if it has one.
fn condition_on(
    alloc: Global,
    x: &Explore,
    f: u32,
    filter: &Filter,
) -> Result<Option<Expr>, NoMemory>
    requires { have_tiers x.now ≡ true }
    ensures { IfOk result (λ e. e ≡ filter_condition (field_at x.now f).kind (field_formula (field_at x.now f)) filter.now) }
{
    match x.fields.as_slice().get(f as usize) {
        Some(field) => {
            let formula = field_formula(alloc, field)?;
            filter_condition(alloc, field.kind, &formula, filter)
        }
        None => {
            let null = literal(alloc, Value::Null)?;
            filter_condition(alloc, Kind::Text, &null, filter)
        }
    }
}
