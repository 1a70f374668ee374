ghost use Rattle.std.specs.Prelude.{◌≡◌, ◌+◌, ◌++◌, ◌∷◌, [], IfOk, OnOk, flat_map, if◌then◌else◌, map, not, slice_index_or};
ghost use Rattle.lk_types.specs.Expressions.{has_number};
ghost use Rattle.lk_semantics.specs.Answers.{filtered};
ghost use Rattle.lk_semantics.specs.Derived.{derived_query, explore_at, no_explore};
ghost use Rattle.lk_semantics.specs.Joins.{part_at};
ghost use Rattle.lk_semantics.specs.Reading.{derived_in};
ghost use Rattle.lk_stored.specs.Reads.{filtered_fields, left_out, row_of, tables_read};

use lk_fields::Row;
use lk_tree::need_joins;
use lk_types::{Derived, Explore, Filter, Model, Origin, Pick};
use lk_val::{Items, NoMemory, Text};
use std::alloc::Global;

// What the query of each derived table reads, by the numbers of derived tables.
pub(crate) fn read_rows(alloc: Global, m: &Model) -> Result<Items<Row>, NoMemory>
    ensures { IfOk result (λ rows. rows ≡ map (row_of m.now) m.now.derived) }
{
    let mut rows = Items::new(alloc);
    for table in m.derived.as_slice() {
        rows.push(row_of(alloc, m, table)?)?;
    }
    Ok(rows)
}

#[tactic(auto, unfolding(crate::specs::Reads::row_of))]
fn row_of(alloc: Global, m: &Model, table: &Derived) -> Result<Row, NoMemory>
    ensures { IfOk result (λ row. row ≡ row_of m.now table.now) }
{
    Ok(Row {
        lacks: false,
        names: tables_read_in(alloc, m, table)?,
    })
}

fn tables_read_in(alloc: Global, m: &Model, table: &Derived) -> Result<Items<usize>, NoMemory>
    ensures { IfOk result (λ tables. tables ≡ tables_read (explore_at m.now table.now.explore) table.now) }
{
    let other = no_explore(alloc);
    tables_read(alloc, explore_or(m, table.explore, &other), table)
}

// The explore of a number, and the other where there is none.
pub(crate) fn explore_or<'a>(m: &'a Model, number: u32, other: &'a Explore) -> &'a Explore
    ensures { result.now ≡ slice_index_or m.now.explores number other.now }
{
    match m.explores.as_slice().get(number as usize) {
        Some(x) => x,
        None => other,
    }
}

// The explore that stands for one that is not there.
pub(crate) fn no_explore(alloc: Global) -> Explore
    ensures { result ≡ no_explore }
{
    Explore {
        name: Text::new(alloc),
        parts: Items::new(alloc),
        joins: Items::new(alloc),
        fields: Items::new(alloc),
        measures: Items::new(alloc),
        always_join: Items::new(alloc),
        always: Items::new(alloc),
        always_where: None,
        access: Items::new(alloc),
        rollups: Items::new(alloc),
    }
}

// The tables that the query of a derived table reads: that of the base view, and those of the joins that it needs.
fn tables_read(alloc: Global, x: &Explore, table: &Derived) -> Result<Items<usize>, NoMemory>
    ensures { IfOk result (λ tables. tables ≡ tables_read x.now table.now) }
{
    let joins = derived_joins(alloc, x, table)?;
    let mut tables = Items::new(alloc);
    add_table(&mut tables, x, 0)?;
    for j in joins.as_slice() {
        add_table(&mut tables, x, *j as usize + 1)?;
    }
    Ok(tables)
}

fn add_table(tables: &mut Items<usize>, x: &Explore, part: usize) -> Result<(), NoMemory>
    ensures { OnOk result (tables.new ≡ tables.old ++ derived_in (part_at x.now part).origin) }
{
    match x.parts.as_slice().get(part) {
        Some(view) => add_origin(tables, view.origin),
        None => Ok(()),
    }
}

pub(crate) fn add_origin(tables: &mut Items<usize>, origin: Origin) -> Result<(), NoMemory>
    ensures { OnOk result (tables.new ≡ tables.old ++ derived_in origin) }
{
    match origin {
        Origin::Stored(_) => Ok(()),
        Origin::Derived(table) => tables.push(table as usize),
    }
}

// The joins that the query of a derived table needs.
pub(crate) fn derived_joins(
    alloc: Global,
    x: &Explore,
    table: &Derived,
) -> Result<Items<u32>, NoMemory>
    ensures { IfOk result (λ joins. joins ≡ (derived_query x.now table.now).joins) }
{
    let picks = picks_of(alloc, table)?;
    let fields = filtered_fields(alloc, x, table.filters.as_slice())?;
    need_joins(alloc, x, picks.as_slice(), fields.as_slice())
}

pub(crate) fn picks_of(alloc: Global, table: &Derived) -> Result<Items<Pick>, NoMemory>
    ensures { IfOk result (λ picks. picks ≡ map (λ c. c.1) table.now.columns) }
{
    let mut picks = Items::new(alloc);
    for column in table.columns.as_slice() {
        picks.push(column.1)?;
    }
    Ok(picks)
}

// The fields that a derived table's query filters on, those of `always_filter` last.
fn filtered_fields(
    alloc: Global,
    x: &Explore,
    filters: &[(u32, Filter)],
) -> Result<Items<u32>, NoMemory>
    ensures { IfOk result (λ fields. fields ≡ filtered_fields x.now filters.now) }
{
    let mut fields = fields_of(alloc, filters)?;
    let left = fields_left_out(alloc, x.always.as_slice(), fields.as_slice())?;
    add_all(&mut fields, left.as_slice())?;
    Ok(fields)
}

fn add_all(fields: &mut Items<u32>, more: &[u32]) -> Result<(), NoMemory>
    ensures { OnOk result (fields.new ≡ fields.old ++ more.now) }
{
    for field in more {
        fields.push(*field)?;
    }
    Ok(())
}

pub(crate) fn fields_of(alloc: Global, filters: &[(u32, Filter)]) -> Result<Items<u32>, NoMemory>
    ensures { IfOk result (λ fields. fields ≡ filtered filters.now) }
{
    let mut fields = Items::new(alloc);
    for filter in filters {
        fields.push(filter.0)?;
    }
    Ok(fields)
}

// The fields of the filters that are on none of some fields.
fn fields_left_out(
    alloc: Global,
    filters: &[(u32, Filter)],
    fields: &[u32],
) -> Result<Items<u32>, NoMemory>
    ensures { IfOk result (λ left. left ≡ flat_map (left_out fields.now) filters.now) }
{
    let mut left = Items::new(alloc);
    for filter in filters {
        add_left_out(fields, filter.0, &mut left)?;
    }
    Ok(left)
}

fn add_left_out(fields: &[u32], field: u32, left: &mut Items<u32>) -> Result<(), NoMemory>
    ensures { OnOk result (left.new ≡ left.old ++ (if not (has_number field fields.now) then field ∷ [] else [])) }
{
    if !fields.contains(&field) {
        left.push(field)?;
    }
    Ok(())
}
