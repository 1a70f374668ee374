// Which joins leave the rows before them as they were.

ghost use Rattle.std.specs.Prelude.{◌≡◌, ◌+◌, ◌&&◌, IfOk, nat_le};
ghost use Rattle.std.specs.List.{list_any};
ghost use Rattle.lk_semantics.specs.Joins.{numbers_below};
ghost use Rattle.lk_semantics.specs.Rollups.{conjuncts_of, has_key_equation, is_key_equation, is_left, keeps_rows};

use crate::role::role_of;
use lk_types::{Explore, Expr, Join, JoinKind};
use lk_val::{Items, NoMemory};
use std::alloc::Global;

/// Whether a join leaves the rows before it as they were: it keeps them all, and finds at most one partner for each, by the
/// enforced key of the view that it brings. (lookd)
pub(crate) fn keeps_rows(alloc: Global, x: &Explore, j: u32) -> Result<bool, NoMemory>
    ensures { IfOk result (λ keeps. keeps ≡ keeps_rows x.now j) }
{
    match x.joins.as_slice().get(j as usize) {
        Some(join) => is_left_by_key(alloc, x, j, join),
        None => Ok(false),
    }
}

fn is_left_by_key(alloc: Global, x: &Explore, j: u32, join: &Join) -> Result<bool, NoMemory>
    ensures { IfOk result (λ keeps. keeps ≡ (is_left join.now.kind && has_key_equation x.now (λ p. nat_le p j) (j + 1) join.now)) }
{
    if !matches!(join.kind, JoinKind::Left) {
        return Ok(false);
    }
    equates_key(alloc, x, j, &join.on)
}

// Whether a condition equates the enforced key of the view that the join of a number brings with an expression over earlier views.
fn equates_key(alloc: Global, x: &Explore, j: u32, on: &Option<Expr>) -> Result<bool, NoMemory>
    ensures { IfOk result (λ equates. equates ≡ list_any (is_key_equation x.now (λ p. nat_le p j) (j + 1)) (conjuncts_of on.now)) }
{
    let Some(on) = on else {
        return Ok(false);
    };
    let earlier = views_to(alloc, j)?;
    Ok(role_of(alloc, x, earlier.as_slice(), j as usize + 1, on)?.finds)
}

// The numbers of the views up to that of a number.
fn views_to(alloc: Global, last: u32) -> Result<Items<u32>, NoMemory>
    ensures { IfOk result (λ views. views ≡ numbers_below (last + 1)) }
{
    let mut views = Items::new(alloc);
    for view in 0..last as usize + 1 {
        views.push(view as u32)?;
    }
    Ok(views)
}
