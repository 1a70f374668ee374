ghost use Rattle.std.specs.Prelude.{◌≡◌, ◌<◌, ◌+◌, ◌-◌, ◌++◌, ◌∷◌, ◌^◌, ◌||◌, ℕ, List, [], IfOk, OnOk, false, if◌then◌else◌, length, map, nat_eq, slice_index_or, true};
ghost use Rattle.std.specs.List.{list_any};
ghost use Rattle.lk_val.specs.Least.{grown};
ghost use Rattle.lk_types.specs.Expressions.{has_number};
ghost use Rattle.lk_semantics.specs.Answers.{dims_of, picked_measures};
ghost use Rattle.lk_semantics.specs.Derived.{asked_parts, joins_for};
ghost use Rattle.lk_semantics.specs.Joins.{is_asked, needed_joins, numbers_below};
ghost use Rattle.lk_tree.specs.Asking.{IsAsking, does_ask, is_asked_first};

use crate::asking::{ask_part, condition_reads, join_reads};
use crate::component::components;
use lk_types::{Explore, Pick};
use lk_val::{Items, NoMemory};
use std::alloc::Global;

/// The joins that a query over some picks and further fields needs, ascending: those of the views that its fields and
/// measures mention, those that are always taken, and those that these require or mention in turn. A measure that is
/// only filtered on is one more pick. (Looker, LookML reference: always_join, required_joins; lookd)
pub fn need_joins(
    alloc: Global,
    x: &Explore,
    picks: &[Pick],
    more: &[u32],
) -> Result<Items<u32>, NoMemory>
    ensures { IfOk result (λ joins. joins ≡ joins_for x.now (dims_of picks.now ++ more.now) (picked_measures picks.now)) }
{
    let fields = fields_of(alloc, picks, more)?;
    let measures = picked_measures(alloc, picks)?;
    let measures = components(alloc, x, measures.as_slice())?;
    joins_over(alloc, x, fields.as_slice(), measures.as_slice())
}

// The dimensions that are picked, and further fields.
fn fields_of(alloc: Global, picks: &[Pick], more: &[u32]) -> Result<Items<u32>, NoMemory>
    ensures { IfOk result (λ fields. fields ≡ dims_of picks.now ++ more.now) }
{
    let mut fields = Items::new(alloc);
    for pick in picks {
        add_dim(&mut fields, *pick)?;
    }
    for field in more {
        fields.push(*field)?;
    }
    Ok(fields)
}

fn add_dim(dims: &mut Items<u32>, pick: Pick) -> Result<(), NoMemory>
    ensures { OnOk result (dims.new ≡ dims.old ++ dims_of (pick ∷ [])) }
{
    if let Pick::Dim(dim) = pick {
        dims.push(dim)?;
    }
    Ok(())
}

// The measures that are picked, in order.
fn picked_measures(alloc: Global, picks: &[Pick]) -> Result<Items<u32>, NoMemory>
    ensures { IfOk result (λ measures. measures ≡ picked_measures picks.now) }
{
    let mut measures = Items::new(alloc);
    for pick in picks {
        add_measure(&mut measures, *pick)?;
    }
    Ok(measures)
}

fn add_measure(measures: &mut Items<u32>, pick: Pick) -> Result<(), NoMemory>
    ensures { OnOk result (measures.new ≡ measures.old ++ picked_measures (pick ∷ [])) }
{
    if let Pick::Mea(measure) = pick {
        measures.push(measure)?;
    }
    Ok(())
}

// The joins that are needed for what some fields and measures mention.
fn joins_over(
    alloc: Global,
    x: &Explore,
    fields: &[u32],
    measures: &[u32],
) -> Result<Items<u32>, NoMemory>
    ensures { IfOk result (λ joins. joins ≡ needed_joins x.now (asked_parts x.now fields.now measures.now)) }
{
    // A number of a view has 32 bits, so there is no room for more joins.
    if x.joins.len() >= 0xffff_ffff {
        return Err(NoMemory);
    }
    let asked = asked_first(alloc, x, fields, measures)?;
    let asking = asking(alloc, x)?;
    least_joins(alloc, x, asked.as_slice(), asking.as_slice())
}

// For each join, whether it is asked for by what some fields and measures mention, or is always taken.
fn asked_first(
    alloc: Global,
    x: &Explore,
    fields: &[u32],
    measures: &[u32],
) -> Result<Items<bool>, NoMemory>
    requires { length x.now.joins < 2 ^ 32 - 1 }
    ensures { IfOk result (λ asked. asked ≡ map (is_asked_first x.now (asked_parts x.now fields.now measures.now)) (numbers_below (length x.now.joins))) }
{
    let mut asked = Items::new(alloc);
    for j in 0..x.joins.len() {
        asked.push(is_asked_first(x, fields, measures, j as u32))?;
    }
    Ok(asked)
}

fn is_asked_first(x: &Explore, fields: &[u32], measures: &[u32], j: u32) -> bool
    requires { j + 1 < 2 ^ 32 }
    ensures { result ≡ is_asked_first x.now (asked_parts x.now fields.now measures.now) j }
{
    ask_part(x, fields, measures, j + 1)
        || x.always_join.as_slice().contains(&j)
        || condition_reads(&x.always_where, j + 1)
}

// For each join, whether it asks for each of the joins.
fn asking(alloc: Global, x: &Explore) -> Result<Items<Items<bool>>, NoMemory>
    requires { length x.now.joins < 2 ^ 32 - 1 }
    ensures { IfOk result (λ asking. asking ≡ map (λ i. map (does_ask x.now i) (numbers_below (length x.now.joins))) (numbers_below (length x.now.joins))) }
{
    let mut asking = Items::new(alloc);
    for i in 0..x.joins.len() {
        asking.push(asked_by(alloc, x, i)?)?;
    }
    Ok(asking)
}

// For each join, whether a join asks for it.
fn asked_by(alloc: Global, x: &Explore, i: usize) -> Result<Items<bool>, NoMemory>
    requires few { length x.now.joins < 2 ^ 32 - 1 }
    requires join { i < length x.now.joins }
    ensures { IfOk result (λ asked. asked ≡ map (does_ask x.now i) (numbers_below (length x.now.joins))) }
{
    let mut asked = Items::new(alloc);
    for j in 0..x.joins.len() {
        asked.push(does_ask(x, i, j as u32))?;
    }
    Ok(asked)
}

fn does_ask(x: &Explore, i: usize, j: u32) -> bool
    requires join { i < length x.now.joins }
    requires part { j + 1 < 2 ^ 32 }
    ensures { result ≡ does_ask x.now i j }
{
    let join = &x.joins.as_slice()[i];
    join.required.as_slice().contains(&j) || join_reads(join, j + 1)
}

// The least set of joins, round by round: each adds the joins that those before ask for, until one adds none.
fn least_joins(
    alloc: Global,
    x: &Explore,
    asked: &[bool],
    asking: &[Items<bool>],
) -> Result<Items<u32>, NoMemory>
    requires few { length x.now.joins < 2 ^ 32 - 1 }
    ensures { IfOk result (λ joins. (parts : List ℕ) → IsAsking x.now parts asked.now asking.now → joins ≡ needed_joins x.now parts) }
{
    let mut joins = Items::new(alloc);
    for _round in 0..x.joins.len() {
        let more = grown(alloc, x, asked, asking, joins.as_slice())?;
        if are_same(more.as_slice(), joins.as_slice()) {
            return Ok(joins);
        }
        joins = more;
    }
    Ok(joins)
}

fn are_same(a: &[u32], b: &[u32]) -> bool
    ensures { result ≡ true → a.now ≡ b.now }
{
    a == b
}

// The joins of a set and those that it asks for.
fn grown(
    alloc: Global,
    x: &Explore,
    asked: &[bool],
    asking: &[Items<bool>],
    joins: &[u32],
) -> Result<Items<u32>, NoMemory>
    requires few { length x.now.joins < 2 ^ 32 - 1 }
    ensures { IfOk result (λ more. (parts : List ℕ) → IsAsking x.now parts asked.now asking.now
        → more ≡ grown nat_eq (numbers_below (length x.now.joins)) (is_asked x.now parts) joins.now) }
{
    let mut more = Items::new(alloc);
    for j in 0..x.joins.len() {
        let is_needed = is_needed(asked, asking, joins, j as u32);
        add_if(&mut more, is_needed, j as u32)?;
    }
    Ok(more)
}

pub(crate) fn add_if(joins: &mut Items<u32>, condition: bool, j: u32) -> Result<(), NoMemory>
    ensures { OnOk result (joins.new ≡ joins.old ++ (if condition then j ∷ [] else [])) }
{
    if condition {
        joins.push(j)?;
    }
    Ok(())
}

// Whether a join is one of a set, or is asked for by it.
fn is_needed(asked: &[bool], asking: &[Items<bool>], joins: &[u32], j: u32) -> bool
    ensures { result ≡ (has_number j joins.now || (slice_index_or asked.now j false || list_any (λ i. slice_index_or (slice_index_or asking.now i []) j false) joins.now)) }
{
    joins.contains(&j) || is_marked(asked, j) || do_ask(asking, joins, j)
}

fn is_marked(asked: &[bool], j: u32) -> bool
    ensures { result ≡ slice_index_or asked.now j false }
{
    match asked.get(j as usize) {
        Some(mark) => *mark,
        None => false,
    }
}

// Whether one of some joins asks for a join.
fn do_ask(asking: &[Items<bool>], joins: &[u32], j: u32) -> bool
    ensures { result ≡ list_any (λ i. slice_index_or (slice_index_or asking.now i []) j false) joins.now }
{
    joins.iter().any(|i| asks_for(asking, *i, j))
}

fn asks_for(asking: &[Items<bool>], i: u32, j: u32) -> bool
    ensures { result ≡ slice_index_or (slice_index_or asking.now i []) j false }
{
    match asking.get(i as usize) {
        Some(asked) => is_marked(asked.as_slice(), j),
        None => false,
    }
}
