ghost use Rattle.std.specs.Prelude.{◌≡◌, ◌++◌, ◌∷◌, [], ℕ, List, IfOk, OnOk, map, if◌then◌else◌};
ghost use Rattle.lk_val.specs.Texts.{is_same_text};
ghost use Rattle.lk_schema.specs.ByTable.{HasRows, rows_at};
ghost use Rattle.std.specs.List.{position};
ghost use Rattle.lk_schema.specs.Schemas.{column_of, rows_in, table_of, tables_in, tables_of};

use crate::again::take_up;
use crate::rows::small_number;
use crate::schema::Declared;
use lk_types::{ColumnDef, TableDef};
use lk_val::{Items, NoMemory, Text};
use std::alloc::Global;
use std::collections::{BTreeMap, BTreeSet};

/// The tables of the rows, in the order of first standing. The rows are gone through once, in time n log n.
pub fn tables_of(alloc: Global, rows: &[Declared]) -> Result<Items<TableDef>, NoMemory>
    ensures { IfOk result (λ tables. tables ≡ tables_of rows.now) }
{
    let names = tables_in(alloc, rows)?;
    let by_table = by_table(alloc, rows)?;
    let mut tables = Items::new(alloc);
    for name in names.as_slice() {
        tables.push(table_in(alloc, rows, &by_table, name)?)?;
    }
    Ok(tables)
}

// The names of the tables, each once.
fn tables_in(alloc: Global, rows: &[Declared]) -> Result<Items<Text>, NoMemory>
    ensures { IfOk result (λ names. names ≡ tables_in [] rows.now) }
{
    let mut names = Items::new(alloc);
    let mut seen = BTreeSet::new(alloc);
    for row in rows {
        let is_new = take_up(&mut seen, Some(row.table.copy(alloc)?))?;
        names = with_name_if(alloc, is_new, names, &row.table)?;
    }
    Ok(names)
}

// The names with one more, if it is new.
fn with_name_if(
    alloc: Global,
    is_new: bool,
    names: Items<Text>,
    name: &Text,
) -> Result<Items<Text>, NoMemory>
    ensures { IfOk result (λ with. with ≡ (if is_new then names ++ name.now ∷ [] else names)) }
{
    let mut names = names;
    if is_new {
        names.push(name.copy(alloc)?)?;
    }
    Ok(names)
}

// The rows of each table, by its name.
fn by_table<'a>(
    alloc: Global,
    rows: &'a [Declared],
) -> Result<BTreeMap<Text, Items<&'a Declared>>, NoMemory>
    ensures { IfOk result (HasRows rows.now) }
{
    let mut by_table = BTreeMap::new(alloc);
    for row in rows {
        add_row(alloc, &mut by_table, row)?;
    }
    Ok(by_table)
}

// Adds a row behind those of its table.
fn add_row<'a>(
    alloc: Global,
    by_table: &mut BTreeMap<Text, Items<&'a Declared>>,
    row: &'a Declared,
) -> Result<(), NoMemory>
    ensures { OnOk result ((table : List ℕ) → rows_at by_table.new table
        ≡ rows_at by_table.old table ++ (if is_same_text row.now.table table then row.now ∷ [] else [])) }
{
    match by_table.get_mut(&row.table) {
        Some(found) => {
            found.push(row)?;
            Ok(())
        }
        None => {
            let mut found = Items::new(alloc);
            found.push(row)?;
            by_table.insert(row.table.copy(alloc)?, found)?;
            Ok(())
        }
    }
}

fn table_in(
    alloc: Global,
    rows: &[Declared],
    by_table: &BTreeMap<Text, Items<&Declared>>,
    table: &Text,
) -> Result<TableDef, NoMemory>
    requires { HasRows rows.now by_table.now }
    ensures { IfOk result (λ made. made ≡ table_of table.now (rows_in table.now rows.now)) }
{
    match by_table.get(table) {
        Some(found) => table_of(alloc, table, found.as_slice()),
        None => table_of(alloc, table, &[]),
    }
}

#[tactic(auto, using(crate::proofs::MapLaws::key_place))]
fn table_of(alloc: Global, table: &Text, rows: &[&Declared]) -> Result<TableDef, NoMemory>
    ensures { IfOk result (λ made. made ≡ table_of table.now (map (λ row. row.now) rows.now)) }
{
    Ok(TableDef {
        name: table.copy(alloc)?,
        columns: columns_of(alloc, rows)?,
        key: column_number(key_of(rows))?,
    })
}

fn columns_of(alloc: Global, rows: &[&Declared]) -> Result<Items<ColumnDef>, NoMemory>
    ensures { IfOk result (λ columns. columns ≡ map column_of (map (λ row. row.now) rows.now)) }
{
    let mut columns = Items::new(alloc);
    for row in rows {
        columns.push(ColumnDef {
            name: row.column.copy(alloc)?,
            kind: row.kind,
        })?;
    }
    Ok(columns)
}

fn key_of(rows: &[&Declared]) -> Option<usize>
    ensures { result ≡ position (λ row. row.now.is_key) rows.now }
{
    rows.iter().position(|row| row.is_key)
}

// The place of a column as its number.
fn column_number(place: Option<usize>) -> Result<Option<u32>, NoMemory>
    ensures { IfOk result (λ number. number ≡ place) }
{
    match place {
        None => Ok(None),
        Some(place) => Ok(Some(small_number(place)?)),
    }
}
