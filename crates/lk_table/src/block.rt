ghost use Rattle.std.specs.Prelude.{◌≡◌, ◌<◌, true, IfOk, IfSome, length, map};
ghost use Rattle.std.specs.List.{All};
ghost use Rattle.lk_val.specs.ValueRefs.{value_of_ref};
ghost use Rattle.lk_table.specs.Contents.{cell_at, row_at, text_bytes};
ghost use Rattle.lk_table.specs.Batches.{sources_of};
ghost use Rattle.lk_table.specs.Columns.{IsBuilt, are_of_kinds, built};
ghost use Rattle.lk_table.specs.Widening.{IsOnce, column_from, kind_at_place, left_from, wide_from, widened};

use crate::builder::BlockBuilder;
use crate::cells::cell_in;
use crate::column::Column;
use crate::header::source_of;
use lk_region::SealedRegion;
use lk_types::Kind;
use lk_val::{NoMemory, ValueRef};
use std::alloc::Global;
use std::marker::Model;
use std::mem;

/// Rows in columns, and the texts of their cells in one region. Clauses see the rows.
#[derive(Drop)]
pub(crate) struct Block {
    region: SealedRegion,
    columns: Vec<Column>,
    key: Option<u32>,
    count: u32,
    // The bytes of the text cells.
    text: u64,
}

impl Model for Block {
    ghost use Rattle.std.specs.Prelude.{map};
    ghost use Rattle.lk_table.specs.Contents.{Content};
    ghost use Rattle.lk_table.specs.Columns.{IsHeld, kind_in, rows_in, values_in};

    ghost Value = { Content };

    ghost view = { λ block. record {
      kinds = map kind_in block.columns.items;
      key = block.key;
      rows = rows_in block.count (map (values_in block.region) block.columns.items);
    } };

    ghost invariant = { λ block. IsHeld block.region block.columns.items block.count block.text };
}

impl Block {
    /// The rows of a builder, with this key column.
    pub(crate) fn built(rows: BlockBuilder, key: Option<u32>) -> Block
        requires { IsBuilt rows }
        ensures { result ≡ record { kinds = (built rows).kinds; key = key; rows = (built rows).rows } }
    {
        let BlockBuilder {
            region,
            columns,
            count,
            text,
        } = rows;
        Block {
            region: region.sealed(),
            columns,
            key,
            count,
            text,
        }
    }

    /// The block in columns of these kinds: its own stand at the places, and each other column is null.
    pub(crate) fn widened(
        self,
        alloc: Global,
        kinds: &[Kind],
        key: Option<u32>,
        places: &[usize],
    ) -> Result<Block, NoMemory>
        requires kinds { self.kinds ≡ map (kind_at_place kinds.now) places.now }
        requires within { All (λ place. place < length kinds.now) places.now }
        requires once { IsOnce places.now }
        ensures { IfOk result (λ block. block
            ≡ widened kinds.now key (sources_of (length kinds.now) places.now) self) }
    {
        let Block {
            region,
            columns,
            key: _,
            count,
            text,
        } = self;
        let columns = wide_columns(alloc, kinds, count, places, columns)?;
        Ok(Block {
            region,
            columns,
            key,
            count,
            text,
        })
    }

    /// The block, which has given back the memory that no cell takes.
    pub(crate) fn shrunk(self) -> Block
        ensures { result ≡ self }
    {
        let Block {
            region,
            mut columns,
            key,
            count,
            text,
        } = self;
        shrink_all(&mut columns);
        Block {
            region,
            columns,
            key,
            count,
            text,
        }
    }

    /// The number of the key column.
    pub(crate) fn key(&self) -> Option<u32>
        ensures { result ≡ self.now.key }
    {
        self.key
    }

    /// The number of rows.
    pub(crate) fn len(&self) -> u32
        ensures { result ≡ length self.now.rows }
    {
        self.count
    }

    /// The bytes of the text cells.
    pub(crate) fn text(&self) -> u64
        ensures { result ≡ text_bytes self.now.rows }
    {
        self.text
    }

    /// A row's cells by column, where they stand.
    pub(crate) fn row(&self, alloc: Global, row: u32) -> Result<Vec<ValueRef<'_>>, NoMemory>
        requires { row < length self.now.rows }
        ensures cells { IfOk result (λ cells. map value_of_ref cells.items ≡ row_at self.now.rows row) }
        ensures kinds { IfOk result (λ cells. are_of_kinds self.now.kinds (map value_of_ref cells.items) ≡ true) }
    {
        let mut cells = Vec::with_capacity(alloc, self.columns.len())?;
        for column in &self.columns {
            cells.push(cell_in(&self.region, column, row as usize))?;
        }
        Ok(cells)
    }

    /// A cell, where it stands; null where there is no such column.
    // A look at each cell of a column calls nothing then.
    #[inline(always)]
    pub(crate) fn cell(&self, row: u32, column: u32) -> ValueRef<'_>
        requires { row < length self.now.rows }
        ensures { value_of_ref result ≡ cell_at (row_at self.now.rows row) column }
    {
        let column = column as usize;
        if column < self.columns.len() {
            cell_in(&self.region, &self.columns[column], row as usize)
        } else {
            ValueRef::Null
        }
    }
}

// The columns of these kinds: those at the places are taken from the narrow ones, and each other is so many nulls.
fn wide_columns(
    alloc: Global,
    kinds: &[Kind],
    count: u32,
    places: &[usize],
    mut narrow: Vec<Column>,
) -> Result<Vec<Column>, NoMemory>
    requires { length narrow.items ≡ length places.now }
    ensures { IfOk result (λ wide. wide.items
        ≡ wide_from kinds.now count places.now narrow.items (length kinds.now)) }
{
    let mut wide = Vec::with_capacity(alloc, kinds.len())?;
    for i in 0..kinds.len() {
        let column = take_column(alloc, &mut narrow, source_of(places, i), kinds[i], count);
        wide.push(column)?;
    }
    Ok(wide)
}

// The column at the source, or so many nulls.
fn take_column(
    alloc: Global,
    narrow: &mut Vec<Column>,
    source: Option<usize>,
    kind: Kind,
    count: u32,
) -> Column
    requires { IfSome source (λ i. i < length narrow.old.items) }
    ensures value { result ≡ column_from narrow.old.items count kind source }
    ensures left { narrow.new.items ≡ left_from narrow.old.items kind source }
{
    match source {
        Some(i) => mem::replace(&mut narrow[i], Column::nulls(alloc, kind, 0)),
        None => Column::nulls(alloc, kind, count),
    }
}

fn shrink_all(columns: &mut [Column])
    ensures { columns.new ≡ columns.old }
{
    for column in columns.iter_mut() {
        column.shrink();
    }
}
