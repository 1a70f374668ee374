ghost use Rattle.std.specs.Prelude.{◌≡◌, ◌<◌, ◌++◌, IfOk, OnOk, flat_map, length, map, nat_eq};
ghost use Rattle.std.specs.List.{list_all};
ghost use Rattle.lk_semantics.specs.Reading.{derived_in, explore_datagroups, listed_value, reads_itself, with_rollups};
ghost use Rattle.lk_semantics.specs.Resolved.{are_one};
ghost use Rattle.lk_fields.specs.Rows.{is_marked};
ghost use Rattle.lk_stored.specs.Reads.{datagroup_if, marked_datagroups, row_of};

use crate::reads::add_origin;
use lk_fields::{Row, reached};
use lk_types::{Derived, Explore, Model, Part, Rollup};
use lk_val::{Items, NoMemory};
use std::alloc::Global;

// Whether the query of a derived table reads it, directly or through others.
pub(crate) fn reads_itself(
    alloc: Global,
    m: &Model,
    rows: &[Row],
    d: usize,
) -> Result<bool, NoMemory>
    requires rows { rows.now ≡ map (row_of m.now) m.now.derived }
    requires table { d < length m.now.derived }
    ensures { IfOk result (λ reads. reads ≡ reads_itself m.now d) }
{
    let tables = rows[d].names.as_slice();
    let marks = reached(alloc, rows, tables)?;
    Ok(is_marked(marks.as_slice(), d))
}

fn is_marked(marks: &[bool], table: usize) -> bool
    ensures { result ≡ is_marked marks.now table }
{
    match marks.get(table) {
        Some(mark) => *mark,
        None => false,
    }
}

// Whether all datagroups that an explore reaches are one.
pub(crate) fn has_one_datagroup(
    alloc: Global,
    m: &Model,
    rows: &[Row],
    x: &Explore,
) -> Result<bool, NoMemory>
    requires rows { rows.now ≡ map (row_of m.now) m.now.derived }
    ensures { IfOk result (λ is. is ≡ are_one (explore_datagroups m.now x.now)) }
{
    let datagroups = explore_datagroups(alloc, m, rows, x)?;
    Ok(are_one(datagroups.as_slice()))
}

fn are_one(datagroups: &[u32]) -> bool
    ensures { result ≡ are_one datagroups.now }
{
    match datagroups {
        [] => true,
        [first, others @ ..] => are_all(*first, others),
    }
}

fn are_all(first: u32, others: &[u32]) -> bool
    ensures { result ≡ list_all (nat_eq first) others.now }
{
    others.iter().all(|other| first == *other)
}

// The datagroups that an explore reaches; those of its own aggregate tables count where it reaches some.
fn explore_datagroups(
    alloc: Global,
    m: &Model,
    rows: &[Row],
    x: &Explore,
) -> Result<Items<u32>, NoMemory>
    requires rows { rows.now ≡ map (row_of m.now) m.now.derived }
    ensures { IfOk result (λ datagroups. datagroups ≡ explore_datagroups m.now x.now) }
{
    let tables = tables_of(alloc, x.parts.as_slice())?;
    let marks = reached(alloc, rows, tables.as_slice())?;
    let datagroups = datagroups_of(alloc, m.derived.as_slice(), marks.as_slice())?;
    with_rollups(datagroups, x)
}

fn tables_of(alloc: Global, parts: &[Part]) -> Result<Items<usize>, NoMemory>
    ensures { IfOk result (λ tables. tables ≡ flat_map (λ part. derived_in part.origin) parts.now) }
{
    let mut tables = Items::new(alloc);
    for part in parts {
        add_origin(&mut tables, part.origin)?;
    }
    Ok(tables)
}

// The datagroups of the persisted tables among those that are marked.
fn datagroups_of(alloc: Global, tables: &[Derived], marks: &[bool]) -> Result<Items<u32>, NoMemory>
    ensures { IfOk result (λ datagroups. datagroups ≡ marked_datagroups tables.now marks.now (length tables.now)) }
{
    let mut datagroups = Items::new(alloc);
    for d in 0..tables.len() {
        add_marked(&mut datagroups, tables, marks, d)?;
    }
    Ok(datagroups)
}

fn add_marked(
    datagroups: &mut Items<u32>,
    tables: &[Derived],
    marks: &[bool],
    d: usize,
) -> Result<(), NoMemory>
    ensures { OnOk result (datagroups.new ≡ datagroups.old ++ datagroup_if tables.now marks.now d) }
{
    if !is_marked(marks, d) {
        return Ok(());
    }
    match tables.get(d) {
        None => Ok(()),
        Some(table) => add_datagroup(datagroups, table.datagroup),
    }
}

fn add_datagroup(datagroups: &mut Items<u32>, more: Option<u32>) -> Result<(), NoMemory>
    ensures { OnOk result (datagroups.new ≡ datagroups.old ++ listed_value more) }
{
    match more {
        None => Ok(()),
        Some(datagroup) => datagroups.push(datagroup),
    }
}

fn with_rollups(datagroups: Items<u32>, x: &Explore) -> Result<Items<u32>, NoMemory>
    ensures { IfOk result (λ all. all ≡ with_rollups x.now datagroups) }
{
    if datagroups.is_empty() {
        return Ok(datagroups);
    }
    let mut datagroups = datagroups;
    add_rollups(&mut datagroups, x.rollups.as_slice())?;
    Ok(datagroups)
}

fn add_rollups(datagroups: &mut Items<u32>, rollups: &[Rollup]) -> Result<(), NoMemory>
    ensures { OnOk result (datagroups.new ≡ datagroups.old ++ map (λ r. r.datagroup) rollups.now) }
{
    for rollup in rollups {
        datagroups.push(rollup.datagroup)?;
    }
    Ok(())
}
