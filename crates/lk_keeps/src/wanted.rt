// Which derived tables are made for builds of some datagroups.

ghost use Rattle.std.specs.Prelude.{◌≡◌, ◌++◌, ◌∷◌, [], IfOk, OnOk, flat_map, if◌then◌else◌};
ghost use Rattle.std.specs.List.{enumerate_from};
ghost use Rattle.lk_keeps.specs.Wanted.{persisted, read_for, read_for_explore, wanted_by};

use crate::numbers::{is_of, number_of};
use lk_fill::{add_numbers, has_number, tables_read};
use lk_rollup::rollup_query;
use lk_types::{Derived, Explore, Model, Rollup};
use lk_val::{Items, NoMemory};
use std::alloc::Global;

/// The derived tables that some datagroups persist, and those that the queries of their aggregate tables read.
pub(crate) fn wanted_by(alloc: Global, m: &Model, groups: &[u32]) -> Result<Items<u32>, NoMemory>
    ensures { IfOk result (λ wanted. wanted ≡ wanted_by m.now groups.now) }
{
    let mut wanted = Items::new(alloc);
    add_persisted(&mut wanted, m.derived.as_slice(), groups)?;
    add_read(alloc, &mut wanted, m.explores.as_slice(), groups)?;
    Ok(wanted)
}

fn add_persisted(
    wanted: &mut Items<u32>,
    tables: &[Derived],
    groups: &[u32],
) -> Result<(), NoMemory>
    ensures { OnOk result (wanted.new ≡ wanted.old ++ flat_map (persisted groups.now) (enumerate_from 0 tables.now)) }
{
    for (place, table) in tables.iter().enumerate() {
        add_if(wanted, number_of(place)?, is_of(groups, table.datagroup))?;
    }
    Ok(())
}

fn add_if(numbers: &mut Items<u32>, number: u32, condition: bool) -> Result<(), NoMemory>
    ensures { OnOk result (numbers.new ≡ numbers.old ++ (if condition then number ∷ [] else [])) }
{
    if condition {
        numbers.push(number)?;
    }
    Ok(())
}

fn add_read(
    alloc: Global,
    wanted: &mut Items<u32>,
    explores: &[Explore],
    groups: &[u32],
) -> Result<(), NoMemory>
    ensures { OnOk result (wanted.new ≡ wanted.old ++ flat_map (read_for_explore groups.now) (enumerate_from 0 explores.now)) }
{
    for (place, x) in explores.iter().enumerate() {
        add_read_by(alloc, wanted, number_of(place)?, x, groups)?;
    }
    Ok(())
}

// Adds what the queries of an explore's aggregate tables read.
fn add_read_by(
    alloc: Global,
    wanted: &mut Items<u32>,
    number: u32,
    x: &Explore,
    groups: &[u32],
) -> Result<(), NoMemory>
    ensures { OnOk result (wanted.new ≡ wanted.old ++ flat_map (read_for groups.now number x.now) x.now.rollups) }
{
    for rollup in x.rollups.as_slice() {
        let tables = read_for(alloc, number, x, rollup, groups)?;
        add_numbers(wanted, tables.as_slice())?;
    }
    Ok(())
}

fn read_for(
    alloc: Global,
    number: u32,
    x: &Explore,
    rollup: &Rollup,
    groups: &[u32],
) -> Result<Items<u32>, NoMemory>
    ensures { IfOk result (λ tables. tables ≡ read_for groups.now number x.now rollup.now) }
{
    if !has_number(groups, rollup.datagroup) {
        return Ok(Items::new(alloc));
    }
    let query = rollup_query(alloc, x, number, rollup)?;
    tables_read(alloc, x, query.joins.as_slice())
}
