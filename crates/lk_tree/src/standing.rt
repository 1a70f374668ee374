ghost use Rattle.std.specs.Prelude.{◌≡◌, ◌<◌, ◌+◌, ◌^◌, IfOk, filter, length, true};
ghost use Rattle.std.specs.Bool.{beq};
ghost use Rattle.std.specs.Cmp.Lexicographic.{pointwise};
ghost use Rattle.std.specs.List.{list_all, list_any};
ghost use Rattle.lk_semantics.specs.Joins.{join_at, mentions_of, numbers_below};
ghost use Rattle.lk_semantics.specs.Rollups.{conjuncts_of, determined_views, has_full, has_key_equation, is_full, is_inner, is_key_equation};
ghost use Rattle.lk_tree.specs.Roles.{is_marked, is_or_marked};
ghost use Rattle.lk_tree.specs.Standings.{are_same, determines_by, finds_earlier_by, finds_joined_by, is_determined_next, is_present_next, keeps_left, marks_times, next_marks, presents_by};

use crate::joins::add_if;
use crate::role::{NO_ROLE, Role, is_marked, role_of};
use lk_types::{Explore, Expr, JoinKind};
use lk_val::{Items, NoMemory};
use std::alloc::Global;

// What is known of the views of an explore beside one of them: a mark for each that its key determines, and for each
// that every row with the key has.
#[derive(Drop)]
pub(crate) struct Standings {
    pub(crate) determined: Items<bool>,
    pub(crate) present: Items<bool>,
}

/// The views that the key of the view `v` determines over a set of joins, ascending: all rows of the joins with one key
/// have the same row of such a view. A view stands with `v` where a join finds it by its enforced key and by nothing
/// that is not determined. (lookd)
pub fn determined(alloc: Global, x: &Explore, joins: &[u32], v: u32) -> Result<Items<u32>, NoMemory>
    ensures { IfOk result (λ views. views ≡ determined_views x.now joins.now v) }
{
    // A number of a view has 32 bits, so there is no room for more views.
    if x.parts.len() > 0xffff_ffff {
        return Err(NoMemory);
    }
    let marks = last_marks(alloc, x, joins, v)?;
    marked_views(alloc, x, marks.determined.as_slice())
}

// The views that are marked, ascending.
fn marked_views(alloc: Global, x: &Explore, marks: &[bool]) -> Result<Items<u32>, NoMemory>
    requires few { length x.now.parts < 2 ^ 32 }
    ensures { IfOk result (λ views. views ≡ filter (is_marked marks.now) (numbers_below (length x.now.parts))) }
{
    let mut views = Items::new(alloc);
    for w in 0..x.parts.len() {
        add_if(&mut views, is_marked(marks, w), w as u32)?;
    }
    Ok(views)
}

// The marks after all rounds: two for each view, or fewer where a round adds nothing.
fn last_marks(alloc: Global, x: &Explore, joins: &[u32], v: u32) -> Result<Standings, NoMemory>
    requires few { length x.now.parts < 2 ^ 32 }
    ensures { IfOk result (λ marks. marks ≡ marks_times x.now joins.now v (length x.now.parts + length x.now.parts)) }
{
    let mut marks = Standings {
        determined: Items::new(alloc),
        present: Items::new(alloc),
    };
    for _round in 0..x.parts.len() + x.parts.len() {
        let more = next_marks(alloc, x, joins, v, &marks)?;
        if are_same(&more, &marks) {
            return Ok(marks);
        }
        marks = more;
    }
    Ok(marks)
}

fn are_same(a: &Standings, b: &Standings) -> bool
    ensures { result ≡ are_same a.now b.now }
{
    are_same_marks(a.determined.as_slice(), b.determined.as_slice())
        && are_same_marks(a.present.as_slice(), b.present.as_slice())
}

fn are_same_marks(a: &[bool], b: &[bool]) -> bool
    ensures { result ≡ pointwise beq a.now b.now }
{
    a == b
}

// One round: what the marks say of each view.
fn next_marks(
    alloc: Global,
    x: &Explore,
    joins: &[u32],
    v: u32,
    marks: &Standings,
) -> Result<Standings, NoMemory>
    requires few { length x.now.parts < 2 ^ 32 }
    ensures { IfOk result (λ more. more ≡ next_marks x.now joins.now v marks.now) }
{
    let mut determined = Items::new(alloc);
    for w in 0..x.parts.len() {
        determined.push(is_determined_next(alloc, x, joins, v, marks, w as u32)?)?;
    }
    let mut present = Items::new(alloc);
    for w in 0..x.parts.len() {
        present.push(is_present_next(alloc, x, joins, v, marks, w as u32)?)?;
    }
    Ok(Standings {
        determined,
        present,
    })
}

fn is_determined_next(
    alloc: Global,
    x: &Explore,
    joins: &[u32],
    v: u32,
    marks: &Standings,
    w: u32,
) -> Result<bool, NoMemory>
    ensures { IfOk result (λ is. is ≡ is_determined_next x.now joins.now v marks.now w) }
{
    if is_marked(marks.determined.as_slice(), w as usize) || w == v {
        return Ok(true);
    }
    if has_full(x, joins) {
        return Ok(false);
    }
    is_determined_over(alloc, x, joins, marks, w)
}

fn is_present_next(
    alloc: Global,
    x: &Explore,
    joins: &[u32],
    v: u32,
    marks: &Standings,
    w: u32,
) -> Result<bool, NoMemory>
    ensures { IfOk result (λ is. is ≡ is_present_next x.now joins.now v marks.now w) }
{
    if is_marked(marks.present.as_slice(), w as usize) || w == v {
        return Ok(true);
    }
    if has_full(x, joins) {
        return Ok(false);
    }
    is_present_over(alloc, x, joins, marks, w)
}

// Whether one of the joins determines a view.
fn is_determined_over(
    alloc: Global,
    x: &Explore,
    joins: &[u32],
    marks: &Standings,
    w: u32,
) -> Result<bool, NoMemory>
    ensures { IfOk result (λ is. is ≡ list_any (determines_by x.now marks.now w) joins.now) }
{
    for j in joins {
        if determines_by(alloc, x, marks, w, *j)? {
            return Ok(true);
        }
    }
    Ok(false)
}

// Whether with one of the joins each row has a view.
fn is_present_over(
    alloc: Global,
    x: &Explore,
    joins: &[u32],
    marks: &Standings,
    w: u32,
) -> Result<bool, NoMemory>
    ensures { IfOk result (λ is. is ≡ list_any (presents_by x.now marks.now w) joins.now) }
{
    for j in joins {
        if presents_by(alloc, x, marks, w, *j)? {
            return Ok(true);
        }
    }
    Ok(false)
}

fn determines_by(
    alloc: Global,
    x: &Explore,
    marks: &Standings,
    w: u32,
    j: u32,
) -> Result<bool, NoMemory>
    ensures { IfOk result (λ is. is ≡ determines_by x.now marks.now w j) }
{
    if finds_joined(alloc, x, marks, w, j)? {
        return Ok(true);
    }
    finds_earlier(alloc, x, marks, w, j)
}

fn presents_by(
    alloc: Global,
    x: &Explore,
    marks: &Standings,
    w: u32,
    j: u32,
) -> Result<bool, NoMemory>
    ensures { IfOk result (λ is. is ≡ presents_by x.now marks.now w j) }
{
    if finds_joined(alloc, x, marks, w, j)? && is_inner(x, j) {
        return Ok(true);
    }
    finds_earlier(alloc, x, marks, w, j)
}

// Whether the joined view w is found by its key, and by nothing that is not determined.
fn finds_joined(
    alloc: Global,
    x: &Explore,
    marks: &Standings,
    w: u32,
    j: u32,
) -> Result<bool, NoMemory>
    ensures { IfOk result (λ is. is ≡ finds_joined_by x.now (is_marked marks.now.determined) w j) }
{
    if w as u64 != j as u64 + 1 || !keeps_left(x, j) {
        return Ok(false);
    }
    let role = role_on(alloc, x, marks.determined.as_slice(), w, j)?;
    Ok(role.finds && role.is_near)
}

// Whether the joined view is present, and w, which stands earlier, is its partner by w's key.
fn finds_earlier(
    alloc: Global,
    x: &Explore,
    marks: &Standings,
    w: u32,
    j: u32,
) -> Result<bool, NoMemory>
    ensures { IfOk result (λ is. is ≡ finds_earlier_by x.now (is_marked marks.now.determined) (is_marked marks.now.present) w j) }
{
    if !is_marked(marks.present.as_slice(), j as usize + 1) || w > j || !keeps_left(x, j) {
        return Ok(false);
    }
    Ok(role_on(alloc, x, marks.determined.as_slice(), w, j)?.finds)
}

// What the condition of a join is beside a view.
fn role_on(alloc: Global, x: &Explore, marks: &[bool], w: u32, j: u32) -> Result<Role, NoMemory>
    ensures finds { IfOk result (λ role. role.finds ≡ has_key_equation x.now (is_marked marks.now) w (join_at x.now j)) }
    ensures near { IfOk result (λ role. role.is_near ≡ list_all (is_or_marked marks.now w) (mentions_of (join_at x.now j).on)) }
{
    match x.joins.as_slice().get(j as usize) {
        Some(join) => role_of_condition(alloc, x, marks, w, &join.on),
        None => Ok(NO_ROLE),
    }
}

fn role_of_condition(
    alloc: Global,
    x: &Explore,
    marks: &[bool],
    w: u32,
    on: &Option<Expr>,
) -> Result<Role, NoMemory>
    ensures finds { IfOk result (λ role. role.finds ≡ list_any (is_key_equation x.now (is_marked marks.now) w) (conjuncts_of on.now)) }
    ensures near { IfOk result (λ role. role.is_near ≡ list_all (is_or_marked marks.now w) (mentions_of on.now)) }
{
    match on {
        Some(on) => role_of(alloc, x, marks, w, on),
        None => Ok(NO_ROLE),
    }
}

// Whether a join keeps no row of its right side alone.
fn keeps_left(x: &Explore, j: u32) -> bool
    ensures { result ≡ keeps_left (join_at x.now j) }
{
    match x.joins.as_slice().get(j as usize) {
        Some(join) => matches!(join.kind, JoinKind::Left | JoinKind::Inner),
        None => false,
    }
}

fn is_inner(x: &Explore, j: u32) -> bool
    ensures { result ≡ is_inner (join_at x.now j).kind }
{
    match x.joins.as_slice().get(j as usize) {
        Some(join) => matches!(join.kind, JoinKind::Inner),
        None => false,
    }
}

// Whether one of the joins keeps the rows of both sides.
fn has_full(x: &Explore, joins: &[u32]) -> bool
    ensures { result ≡ has_full x.now joins.now }
{
    joins.iter().any(|j| is_full(x, *j))
}

fn is_full(x: &Explore, j: u32) -> bool
    ensures { result ≡ is_full (join_at x.now j).kind }
{
    match x.joins.as_slice().get(j as usize) {
        Some(join) => matches!(join.kind, JoinKind::Full),
        None => false,
    }
}
