ghost use Rattle.std.specs.Prelude.{◌≡◌, ◌<◌, ◌++◌, ◌∷◌, [], IfOk, length, map};
ghost use Rattle.lk_val.specs.ValueRefs.{value_of_ref};
ghost use Rattle.lk_table.specs.Contents.{cell_at, content_of, row_at, size_of};
ghost use Rattle.lk_table.specs.Versions.{emptied, followed, rows_of};

use crate::amount::Size;
use crate::batch::kinds_of;
use crate::part::Part;
use lk_types::{Kind, TableDef};
use lk_val::{NoMemory, ValueRef};
use std::alloc::Global;
use std::marker::Model;

/// A table as it is between two loads: its rows stand in parts, which versions share. Clauses see the rows. (lookd)
#[derive(Drop)]
pub struct TableVersion {
    pub(crate) kinds: Vec<Kind>,
    pub(crate) key: Option<u32>,
    pub(crate) parts: Vec<Part>,
    // The number of rows.
    pub(crate) count: u32,
    // The bytes of the text cells.
    pub(crate) text: u64,
}

impl Model for TableVersion {
    ghost use Rattle.lk_table.specs.Contents.{Content};
    ghost use Rattle.lk_table.specs.Versions.{IsVersion, rows_of};

    ghost Value = { Content };

    ghost view = { λ version. record {
      kinds = version.kinds.items;
      key = version.key;
      rows = rows_of version.parts.items;
    } };

    ghost invariant = { λ version. IsVersion version.kinds.items version.key version.parts.items
        version.count version.text };
}

impl TableVersion {
    /// The table without rows. A table of more columns than 32 bits count is want of memory.
    pub fn empty(alloc: Global, def: &TableDef) -> Result<TableVersion, NoMemory>
        ensures { IfOk result (λ version. version ≡ content_of def.now []) }
    {
        if def.columns.len() > u32::MAX as usize {
            return Err(NoMemory);
        }
        Ok(TableVersion {
            kinds: kinds_of(alloc, def.columns.as_slice())?,
            key: def.key,
            parts: Vec::new(alloc),
            count: 0,
            text: 0,
        })
    }

    // The number of rows.
    pub(crate) fn len(&self) -> u32
        ensures { result ≡ length self.now.rows }
    {
        self.count
    }

    // A cell, where it stands; null where there is no such column.
    pub(crate) fn cell(&self, row: u32, column: u32) -> ValueRef<'_>
        requires { row < length self.now.rows }
        ensures { value_of_ref result ≡ cell_at (row_at self.now.rows row) column }
    {
        let (part, behind) = part_at(&self.parts, row);
        part.cell(behind, column)
    }

    // A row's cells by column, where they stand.
    pub(crate) fn row(&self, alloc: Global, row: u32) -> Result<Vec<ValueRef<'_>>, NoMemory>
        requires { row < length self.now.rows }
        ensures { IfOk result (λ cells. map value_of_ref cells.items ≡ row_at self.now.rows row) }
    {
        let (part, behind) = part_at(&self.parts, row);
        part.block().row(alloc, behind)
    }

    /// How many blocks hold the rows: one for each batch since the table was made, replaced or compacted. No clause speaks
    /// of it.
    pub fn blocks(&self) -> usize {
        self.parts.len()
    }

    /// The version once more: its rows are shared and not copied.
    pub fn share(&self, alloc: Global) -> Result<TableVersion, NoMemory>
        ensures { IfOk result (λ version. version ≡ self.now) }
    {
        Ok(TableVersion {
            kinds: Vec::from_slice(alloc, &self.kinds)?,
            key: self.key,
            parts: shared(alloc, &self.parts)?,
            count: self.count,
            text: self.text,
        })
    }

    // The version without its rows.
    pub(crate) fn emptied(&self, alloc: Global) -> Result<TableVersion, NoMemory>
        ensures { IfOk result (λ version. version ≡ emptied self.now) }
    {
        Ok(TableVersion {
            kinds: Vec::from_slice(alloc, &self.kinds)?,
            key: self.key,
            parts: Vec::new(alloc),
            count: 0,
            text: 0,
        })
    }
}

impl TableVersion {
    // The version with a part more, which shares the others.
    pub(crate) fn with_part(&self, alloc: Global, part: Part) -> Result<TableVersion, NoMemory>
        requires kinds { part.kinds ≡ self.now.kinds }
        requires key { part.key ≡ self.now.key }
        ensures { IfOk result (λ version. version ≡ followed self.now part.rows) }
    {
        let Some(count) = self.count.checked_add(part.len()) else {
            return Err(NoMemory);
        };
        let Some(text) = self.text.checked_add(part.block().text()) else {
            return Err(NoMemory);
        };
        Ok(TableVersion {
            kinds: Vec::from_slice(alloc, &self.kinds)?,
            key: self.key,
            parts: shared_with(alloc, &self.parts, part)?,
            count,
            text,
        })
    }
}

// The parts once more, and one behind them.
fn shared_with(alloc: Global, parts: &[Part], last: Part) -> Result<Vec<Part>, NoMemory>
    ensures { IfOk result (λ all. all.items ≡ parts.now ++ last ∷ []) }
{
    let mut all = shared(alloc, parts)?;
    all.push(last)?;
    Ok(all)
}

// The parts once more.
fn shared(alloc: Global, parts: &[Part]) -> Result<Vec<Part>, NoMemory>
    ensures { IfOk result (λ all. all.items ≡ parts.now) }
{
    let mut all = Vec::new(alloc);
    for part in parts {
        all.push(part.share()?)?;
    }
    Ok(all)
}

/// The rows of a table's version, to be looked at. It takes no memory.
#[derive(Drop)]
pub struct TableRows<'a> {
    version: &'a TableVersion,
}

impl<'a> Model for TableRows<'a> {
    ghost use Rattle.lk_table.specs.Contents.{Content};

    ghost Value = { Content };

    ghost view = { λ rows. rows.version.now };
}

/// The rows of a version.
pub fn rows(t: &TableVersion) -> TableRows<'_>
    ensures { result ≡ t.now }
{
    TableRows { version: t }
}

impl TableRows<'_> {
    /// The number of rows.
    pub fn len(&self) -> u32
        ensures { result ≡ length self.now.rows }
    {
        let version = self.version;
        version.len()
    }

    /// A cell, where it stands, by row and column counted from 0; null where there is no such column.
    pub fn cell(&self, row: u32, column: u32) -> ValueRef<'_>
        requires { row < length self.now.rows }
        ensures { value_of_ref result ≡ cell_at (row_at self.now.rows row) column }
    {
        let version = self.version;
        version.cell(row, column)
    }
}

// The part in which a row stands, and its number there.
fn part_at(parts: &[Part], row: u32) -> (&Part, u32)
    requires { row < length (rows_of parts.now) }
    ensures within { result.1 < length result.0.now.rows }
    ensures row { row_at result.0.now.rows result.1 ≡ row_at (rows_of parts.now) row }
{
    let mut behind = row;
    for part in parts {
        if behind < part.len() {
            return (part, behind);
        }
        behind -= part.len();
    }
    // The parts have more rows than that.
    unreachable!()
}

/// How much a version holds.
pub fn size(t: &TableVersion) -> Size
    ensures { result ≡ size_of t.now }
{
    Size {
        cells: u64::from(t.count) * t.kinds.len() as u64,
        text: t.text,
    }
}
