ghost use Rattle.std.specs.Prelude.{◌≡◌, ◌<◌, ◌≤◌, ◌∷◌, ◌||◌, ℕ, List, false, if◌then◌else◌, length, slice_index_or};
ghost use Rattle.std.specs.List.{list_any};
ghost use Rattle.lk_types.specs.Expressions.{has_number};
ghost use Rattle.lk_semantics.specs.Joins.{condition_of, is_fanned, join_at, mentions_of, repeats_earlier, repeats_joined};
ghost use Rattle.lk_tree.specs.PartSets.{AreBehind, AreViews, HasParts, fanned_by};

use crate::asking::join_reads;
use lk_types::{Explore, Join, JoinKind, Relation};

/// Whether a set of joins can repeat the rows of a view. A view is fanned where its own join can meet a row several
/// times or mentions a fanned view, and where a later join can give a row several partners. It takes no memory.
/// (Looker, LookML reference: relationship; lookd)
pub fn fanned(x: &Explore, joins: &[u32], part: u32) -> bool
    requires few { length x.now.joins ≤ 31 }
    ensures { result ≡ is_fanned x.now joins.now part }
{
    let mut views = Views {
        before: with_part([false; 32], 0),
        fanned: [false; 32],
    };
    for j in 0..x.joins.len() {
        views = after_join(x, joins, j, views);
    }
    has_part(views.fanned, part as usize)
}

// The views before a join, and which of them are fanned. A set of views has a truth value for each of the first 32.
#[derive(Clone, Copy)]
struct Views {
    before: [bool; 32],
    fanned: [bool; 32],
}

// The views behind a join, if it is one of the set.
fn after_join(x: &Explore, joins: &[u32], j: usize, views: Views) -> Views
    requires few { length x.now.joins ≤ 31 }
    requires join { j < length x.now.joins }
    ensures { (before fanned : List ℕ) → AreViews views before fanned
        → AreBehind (has_number j joins.now) (join_at x.now j) j result before fanned }
{
    if !is_taken(joins, j) {
        return views;
    }
    Views {
        before: with_part(views.before, j + 1),
        fanned: fanned_by(&x.joins.as_slice()[j], j + 1, views),
    }
}

// Whether a join is one of some.
fn is_taken(joins: &[u32], j: usize) -> bool
    ensures { result ≡ has_number j joins.now }
{
    joins.iter().any(|n| j == *n as usize)
}

// The fanned views behind a join that brings a view.
fn fanned_by(join: &Join, part: usize, views: Views) -> [bool; 32]
    requires { part < 32 }
    ensures { (before fanned : List ℕ) → AreViews views before fanned → HasParts result (fanned_by join.now part before fanned) }
{
    let earlier = earlier_views(join, views);
    if is_repeated(join, views) {
        with_part(earlier, part)
    } else {
        earlier
    }
}

// The views before a join that are fanned behind it: all where it can repeat them.
fn earlier_views(join: &Join, views: Views) -> [bool; 32]
    ensures { (before fanned : List ℕ) → AreViews views before fanned → HasParts result (if repeats_earlier join.now then before else fanned) }
{
    if repeats_earlier(join) {
        views.before
    } else {
        views.fanned
    }
}

// Whether the view that a join brings is fanned by it.
fn is_repeated(join: &Join, views: Views) -> bool
    ensures { (before fanned : List ℕ) → AreViews views before fanned
        → result ≡ (repeats_joined join.now || list_any (λ p. has_number p fanned) (mentions_of (condition_of join.now))) }
{
    if repeats_joined(join) {
        return true;
    }
    reads_one_of(join, views.fanned)
}

fn with_part(set: [bool; 32], part: usize) -> [bool; 32]
    requires { part < 32 }
    ensures { (parts : List ℕ) → HasParts set parts → HasParts result (part ∷ parts) }
{
    let mut set = set;
    set[part] = true;
    set
}

fn has_part(set: [bool; 32], part: usize) -> bool
    ensures { result ≡ slice_index_or set part false }
{
    part < 32 && set[part]
}

// Whether the condition of a join mentions one of some views.
fn reads_one_of(join: &Join, set: [bool; 32]) -> bool
    ensures { (parts : List ℕ) → HasParts set parts → result ≡ list_any (λ p. has_number p parts) (mentions_of (condition_of join.now)) }
{
    for part in 0..32u32 {
        if set[part as usize] && join_reads(join, part) {
            return true;
        }
    }
    false
}

// Whether a join can repeat a row of the view that it brings.
fn repeats_joined(join: &Join) -> bool
    ensures { result ≡ repeats_joined join.now }
{
    match (join.relation, join.kind) {
        (Relation::ManyToOne | Relation::ManyToMany, _) | (_, JoinKind::Cross) => true,
        _ => false,
    }
}

// Whether a join can repeat the rows before it.
fn repeats_earlier(join: &Join) -> bool
    ensures { result ≡ repeats_earlier join.now }
{
    match (join.relation, join.kind) {
        (Relation::OneToMany | Relation::ManyToMany, _) | (_, JoinKind::Cross) => true,
        _ => false,
    }
}
