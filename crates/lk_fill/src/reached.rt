// To which datagroup a query's reading comes first.

ghost use Rattle.std.specs.Prelude.{◌≡◌, IfOk, map};
ghost use Rattle.lk_semantics.specs.Joins.{part_at};
ghost use Rattle.lk_semantics.specs.Reading.{derived_in};
ghost use Rattle.lk_semantics.specs.Resolved.{IsResolved};
ghost use Rattle.lk_fill.specs.Orders.{reads_of_each};
ghost use Rattle.lk_fill.specs.Reached.{first_reached, group_next, group_within, groups_next, groups_reached, or_else};
ghost use Rattle.lk_fill.specs.Reads.{tables_read};

use crate::reading::reads_of_each;
use lk_types::{Derived, Explore, Model, Origin};
use lk_val::{Items, NoMemory};
use std::alloc::Global;

/// Of each derived table of a model, the datagroup to which reading it comes first: its own, where it is persisted, and else that of
/// the first persisted derived table that its query reads, directly or through others; none where it reads none. (Looker, LookML
/// reference: datagroup_trigger; lookd)
pub fn groups_reached(alloc: Global, m: &Model) -> Result<Items<Option<u32>>, NoMemory>
    requires { IsResolved m.now }
    ensures { IfOk result (λ groups. groups ≡ groups_reached m.now) }
{
    let reads = reads_of_each(alloc, m)?;
    let mut groups = own_groups(alloc, m.derived.as_slice())?;
    for _round in 0..m.derived.len() {
        groups = groups_next(
            alloc,
            groups.as_slice(),
            reads.as_slice(),
            m.derived.as_slice(),
        )?;
    }
    Ok(groups)
}

// The datagroup of each derived table.
fn own_groups(alloc: Global, tables: &[Derived]) -> Result<Items<Option<u32>>, NoMemory>
    ensures { IfOk result (λ groups. groups ≡ map (λ table. table.datagroup) tables.now) }
{
    let mut groups = Items::new(alloc);
    for table in tables {
        groups.push(table.datagroup)?;
    }
    Ok(groups)
}

// One round: of each table its own datagroup, and else that to which what it reads comes.
fn groups_next(
    alloc: Global,
    groups: &[Option<u32>],
    reads: &[Items<u32>],
    tables: &[Derived],
) -> Result<Items<Option<u32>>, NoMemory>
    ensures { IfOk result (λ next. next ≡ groups_next groups.now reads.now tables.now) }
{
    let mut next = Items::new(alloc);
    for (place, table) in tables.iter().enumerate() {
        next.push(group_next(groups, reads, place, table))?;
    }
    Ok(next)
}

fn group_next(
    groups: &[Option<u32>],
    reads: &[Items<u32>],
    place: usize,
    table: &Derived,
) -> Option<u32>
    ensures { result ≡ group_next groups.now reads.now (place, table.now) }
{
    match reads.get(place) {
        Some(tables) => table.datagroup.or(first_among(groups, tables.as_slice())),
        None => table.datagroup,
    }
}

fn first_among(groups: &[Option<u32>], tables: &[u32]) -> Option<u32>
    ensures { result ≡ first_reached groups.now tables.now }
{
    for table in tables {
        if let Some(Some(group)) = groups.get(*table as usize) {
            return Some(*group);
        }
    }
    None
}

/// Where reading each derived table comes to these datagroups, the one to which a query over some joins comes first, through the
/// base view or the views that the joins bring. It takes no memory. (lookd)
pub fn first_reached(groups: &[Option<u32>], x: &Explore, joins: &[u32]) -> Option<u32>
    ensures { result ≡ first_reached groups.now (tables_read x.now joins.now) }
{
    if let Some(group) = reached_from(groups, x, 0) {
        return Some(group);
    }
    for join in joins {
        if let Some(group) = reached_from(groups, x, *join as usize + 1) {
            return Some(group);
        }
    }
    None
}

// The datagroup to which reading a view comes.
fn reached_from(groups: &[Option<u32>], x: &Explore, part: usize) -> Option<u32>
    ensures { result ≡ first_reached groups.now (derived_in (part_at x.now part).origin) }
{
    match x.parts.as_slice().get(part) {
        Some(part) => reached_by(groups, part.origin),
        None => None,
    }
}

fn reached_by(groups: &[Option<u32>], origin: Origin) -> Option<u32>
    ensures { result ≡ first_reached groups.now (derived_in origin) }
{
    match origin {
        Origin::Stored(_) => None,
        Origin::Derived(table) => first_among(groups, &[table]),
    }
}
