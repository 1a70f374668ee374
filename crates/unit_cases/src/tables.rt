// Blocks of a table, and texts that are kept once: what no answer shows.

ghost use Rattle.std.specs.Prelude.{◌<◌, IfOk, length, map};
ghost use Rattle.lk_table.specs.Contents.{kind_of};
ghost use Rattle.lk_table.specs.Versions.{IsShaped};

use crate::fault::CaseFault;
use crate::values::add_value;
use lk_region::Region;
use lk_table::{BatchFault, TableRows, TableVersion, apply, compact, read_batch, rows, size};
use lk_types::{ColumnDef, Kind, TableDef};
use lk_val::{Items, NoMemory, Text};
use std::alloc::Global;

/// Adds the marks of texts, which stand between spaces; how many of them are kept, and how many after a reset.
pub fn add_marks(alloc: Global, texts: &str, line: &mut String) -> Result<(), CaseFault> {
    let mut region = Region::new(alloc);
    for text in texts.split(' ') {
        let mark = region.intern(text.as_bytes())?.0;
        write!(line, "{mark}, ")?;
    }
    let kept = region.len();
    region.reset();
    let left = region.len();
    Ok(write!(line, "{kept} texts, {left} after the reset")?)
}

/// Adds how many blocks so many batches of one row stand in, how many after they were compacted, and the rows then.
pub fn add_appends(alloc: Global, count: &str, line: &mut String) -> Result<(), CaseFault> {
    let count = count.parse::<u32>().or(Err(CaseFault::NoSuchCase))?;
    let def = regions(alloc)?;
    match appended(alloc, &def, count) {
        Ok(table) => add_compacted(alloc, &table, line),
        Err(_) => Err(CaseFault::NoMemory),
    }
}

// A table of ids and regions.
fn regions(alloc: Global) -> Result<TableDef, NoMemory> {
    let mut columns = Items::new(alloc);
    columns.push(column(alloc, "id", Kind::Number)?)?;
    columns.push(column(alloc, "region", Kind::Text)?)?;
    Ok(TableDef {
        name: Text::new(alloc),
        columns,
        key: Some(0),
    })
}

fn column(alloc: Global, name: &str, kind: Kind) -> Result<ColumnDef, NoMemory> {
    Ok(ColumnDef {
        name: Text::from_str(alloc, name)?,
        kind,
    })
}

fn appended(alloc: Global, def: &TableDef, count: u32) -> Result<TableVersion, BatchFault> {
    let mut table = TableVersion::empty(alloc, def)?;
    for id in 0..count {
        table = with_row(alloc, def, &table, id)?;
    }
    Ok(table)
}

fn with_row(
    alloc: Global,
    def: &TableDef,
    table: &TableVersion,
    id: u32,
) -> Result<TableVersion, BatchFault>
    requires { IsShaped (map kind_of def.now.columns) def.now.key table.now }
    ensures { IfOk result (λ version. IsShaped (map kind_of def.now.columns) def.now.key version) }
{
    let Ok(text) = format!(in alloc; "id,region\n{id},EU\n") else {
        return Err(BatchFault::NoMemory);
    };
    let batch = read_batch(alloc, def, text.as_bytes())?;
    apply(alloc, table, &batch, false)
}

fn add_compacted(alloc: Global, table: &TableVersion, line: &mut String) -> Result<(), CaseFault> {
    let compacted = compact(alloc, table)?;
    let (before, after) = (table.blocks(), compacted.blocks());
    write!(line, "{before} blocks, then {after}: ")?;
    add_rows(alloc, &rows(&compacted), line)?;
    let held = size(&compacted);
    let (cells, text) = (held.cells, held.text);
    Ok(write!(line, " ({cells} cells, {text} bytes)")?)
}

fn add_rows(alloc: Global, all: &TableRows<'_>, line: &mut String) -> Result<(), CaseFault> {
    for row in 0..all.len() {
        line.push_str(if row > 0 { " / " } else { "" })?;
        add_cell_of(alloc, all, row, 0, line)?;
        line.push_str(",")?;
        add_cell_of(alloc, all, row, 1, line)?;
    }
    Ok(())
}

fn add_cell_of(
    alloc: Global,
    all: &TableRows<'_>,
    row: u32,
    column: u32,
    line: &mut String,
) -> Result<(), CaseFault>
    requires { row < length all.now.rows }
{
    let value = all.cell(row, column).to_value(alloc)?;
    let added = add_value(alloc, &value, line);
    drop(value);
    added
}
