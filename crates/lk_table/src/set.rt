// Tables by number, as a query sees them.

ghost use Rattle.std.specs.Prelude.{◌≡◌, ◌<◌, [], IfOk, length, map, slice_index_or, slice_set};
ghost use Rattle.lk_val.specs.ValueRefs.{value_of_ref};
ghost use Rattle.lk_table.specs.Contents.{cell_at, row_at};
ghost use Rattle.lk_table.specs.RowRefs.{rows_of_ref};

use crate::version::TableVersion;
use lk_val::{Items, NoMemory, Value, ValueRef};
use std::alloc::Global;
use std::marker::Model;
use std::sync::Arc;

/// The stored tables by number, each by its rows. Clauses see the rows.
#[derive(Drop)]
pub struct StoredTables {
    versions: Items<TableVersion>,
}

impl Model for StoredTables {
    ghost use Rattle.std.specs.Prelude.{map};
    ghost use Rattle.lk_types.specs.declared.rows.Tables.{Tables};

    ghost Value = { Tables };

    ghost view = { λ tables. record { tables = map (λ version. version.rows) tables.versions } };
}

impl StoredTables {
    /// The tables of these versions.
    pub fn new(versions: Items<TableVersion>) -> StoredTables
        ensures { result ≡ record { tables = map (λ version. version.rows) versions } }
    {
        StoredTables { versions }
    }

    // The rows of the table of a number; none past the last.
    fn rows(&self, number: u32) -> RowsRef<'_>
        ensures { rows_of_ref result ≡ slice_index_or self.now.tables number [] }
    {
        match self.versions.as_slice().get(number as usize) {
            Some(version) => RowsRef::Version(version),
            None => RowsRef::List(&[]),
        }
    }
}

/// The rows of a derived table, which sets of tables can share. Clauses see the rows.
#[derive(Drop)]
pub struct DerivedRows {
    rows: Arc<Items<Items<Value>>>,
}

impl Model for DerivedRows {
    ghost use Rattle.std.specs.Arc.{arc_value};
    ghost use Rattle.lk_types.specs.Tables.{Rows};

    ghost Value = { Rows };

    ghost view = { λ derived. arc_value derived.rows };
}

impl DerivedRows {
    /// These rows.
    pub fn new(alloc: Global, rows: Items<Items<Value>>) -> Result<DerivedRows, NoMemory>
        ensures { IfOk result (λ derived. derived ≡ rows) }
    {
        Ok(DerivedRows {
            rows: Arc::new(alloc, rows)?,
        })
    }

    /// The rows once more: nothing of them is copied.
    pub fn share(&self) -> Result<DerivedRows, NoMemory>
        ensures { IfOk result (λ derived. derived ≡ self.now) }
    {
        Ok(DerivedRows {
            rows: Arc::try_clone(&self.rows)?,
        })
    }

    /// The rows in a slice.
    pub fn as_slice(&self) -> &[Items<Value>]
        ensures { result.now ≡ self.now }
    {
        self.rows.as_slice()
    }
}

/// The stored tables and the rows of the derived ones, both by number, as a query sees them. Clauses see the rows.
#[derive(Drop)]
pub struct TableSet {
    stored: StoredTables,
    derived: Items<DerivedRows>,
}

impl Model for TableSet {
    ghost use Rattle.lk_types.specs.declared.rows.Sources.{Sources};

    ghost Value = { Sources };

    ghost view = { λ set. record { stored = set.stored.tables; derived = set.derived } };
}

impl TableSet {
    /// These tables.
    pub fn new(stored: StoredTables, derived: Items<DerivedRows>) -> TableSet
        ensures { result ≡ record { stored = stored.tables; derived = derived } }
    {
        TableSet { stored, derived }
    }

    /// The set with these rows in place of those of the derived table of a number, which is one of its tables.
    pub fn with_derived(self, number: u32, rows: DerivedRows) -> TableSet
        requires { number < length self.derived }
        ensures { result ≡ record { stored = self.stored; derived = slice_set self.derived number rows } }
    {
        let TableSet { stored, derived } = self;
        let mut all = derived.into_vec();
        all[number as usize] = rows;
        TableSet {
            stored,
            derived: Items::from_vec(all),
        }
    }

    /// The rows of the stored table of a number; none past the last.
    pub fn stored(&self, number: u32) -> RowsRef<'_>
        ensures { rows_of_ref result ≡ slice_index_or self.now.stored number [] }
    {
        self.stored.rows(number)
    }

    /// The rows of the derived table of a number; none past the last.
    pub fn derived(&self, number: u32) -> RowsRef<'_>
        ensures { rows_of_ref result ≡ slice_index_or self.now.derived number [] }
    {
        match self.derived.as_slice().get(number as usize) {
            Some(rows) => RowsRef::List(rows.as_slice()),
            None => RowsRef::List(&[]),
        }
    }

    /// The rows of the derived table of a number once more, shared; none past the last.
    pub fn share_derived(&self, alloc: Global, number: u32) -> Result<DerivedRows, NoMemory>
        ensures { IfOk result (λ rows. rows ≡ slice_index_or self.now.derived number []) }
    {
        match self.derived.as_slice().get(number as usize) {
            Some(rows) => rows.share(),
            None => DerivedRows::new(alloc, Items::new(alloc)),
        }
    }
}

/// The rows of a table where they stand: in a version, or in a list. It takes no memory and is copied freely.
#[derive(Clone, Copy)]
pub enum RowsRef<'a> {
    Version(&'a TableVersion),
    List(&'a [Items<Value>]),
}

impl<'a> RowsRef<'a> {
    /// The number of rows.
    pub fn len(self) -> usize
        ensures { result ≡ length (rows_of_ref self.entry) }
    {
        match self {
            RowsRef::Version(version) => version.len() as usize,
            RowsRef::List(rows) => rows.len(),
        }
    }

    /// A cell, where it stands, by row and column counted from 0; null where there is no such row or column.
    pub fn cell(self, row: usize, column: u32) -> ValueRef<'a>
        ensures { value_of_ref result ≡ cell_at (row_at (rows_of_ref self.entry) row) column }
    {
        match self {
            RowsRef::Version(version) => version_cell(version, row, column),
            RowsRef::List(rows) => listed_cell(rows, row, column),
        }
    }

    /// A copy of the cells of a row; none past the last row.
    pub fn row(self, alloc: Global, row: usize) -> Result<Items<Value>, NoMemory>
        ensures { IfOk result (λ cells. cells ≡ row_at (rows_of_ref self.entry) row) }
    {
        match self {
            RowsRef::Version(version) => version_row(alloc, version, row),
            RowsRef::List(rows) => listed_row(alloc, rows, row),
        }
    }
}

fn version_cell(version: &TableVersion, row: usize, column: u32) -> ValueRef<'_>
    ensures { value_of_ref result ≡ cell_at (row_at version.now.rows row) column }
{
    if row >= version.len() as usize {
        return ValueRef::Null;
    }
    match u32::try_from(row) {
        Ok(row) => version.cell(row, column),
        // A version has no more rows than 32 bits count.
        Err(_) => unreachable!(),
    }
}

fn listed_cell(rows: &[Items<Value>], row: usize, column: u32) -> ValueRef<'_>
    ensures { value_of_ref result ≡ cell_at (row_at rows.now row) column }
{
    match rows.get(row) {
        Some(cells) => cell_in(cells.as_slice(), column),
        None => ValueRef::Null,
    }
}

fn cell_in(cells: &[Value], column: u32) -> ValueRef<'_>
    ensures { value_of_ref result ≡ cell_at cells.now column }
{
    match cells.get(column as usize) {
        Some(cell) => cell.as_ref(),
        None => ValueRef::Null,
    }
}

fn version_row(alloc: Global, version: &TableVersion, row: usize) -> Result<Items<Value>, NoMemory>
    ensures { IfOk result (λ cells. cells ≡ row_at version.now.rows row) }
{
    if row >= version.len() as usize {
        return Ok(Items::new(alloc));
    }
    match u32::try_from(row) {
        Ok(row) => copy_each(alloc, &version.row(alloc, row)?),
        // A version has no more rows than 32 bits count.
        Err(_) => unreachable!(),
    }
}

fn copy_each(alloc: Global, cells: &[ValueRef<'_>]) -> Result<Items<Value>, NoMemory>
    ensures { IfOk result (λ values. values ≡ map value_of_ref cells.now) }
{
    let mut values = Items::new(alloc);
    for cell in cells {
        values.push(cell.to_value(alloc)?)?;
    }
    Ok(values)
}

fn listed_row(alloc: Global, rows: &[Items<Value>], row: usize) -> Result<Items<Value>, NoMemory>
    ensures { IfOk result (λ cells. cells ≡ row_at rows.now row) }
{
    match rows.get(row) {
        Some(cells) => copy_values(alloc, cells.as_slice()),
        None => Ok(Items::new(alloc)),
    }
}

fn copy_values(alloc: Global, cells: &[Value]) -> Result<Items<Value>, NoMemory>
    ensures { IfOk result (λ copied. copied ≡ cells.now) }
{
    let mut copied = Items::new(alloc);
    for cell in cells {
        copied.push(cell.copy(alloc)?)?;
    }
    Ok(copied)
}

/// The tables once more: their rows are shared and not copied. (lookd)
pub fn share_tables(alloc: Global, tables: &[TableVersion]) -> Result<Items<TableVersion>, NoMemory>
    ensures { IfOk result (λ shared. shared ≡ tables.now) }
{
    let mut shared = Items::new(alloc);
    for table in tables {
        shared.push(table.share(alloc)?)?;
    }
    Ok(shared)
}
