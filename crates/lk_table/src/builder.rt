ghost use Rattle.std.specs.Prelude.{◌≡◌, ◌∷◌, [], true, IfOk, OnOk, None, length, map};
ghost use Rattle.std.specs.List.{All};
ghost use Rattle.lk_val.specs.ValueRefs.{value_of_ref};
ghost use Rattle.lk_table.specs.Contents.{text_length};
ghost use Rattle.lk_table.specs.Columns.{AreText, IsBuilt, IsMarked, are_of_kinds, built, kind_in, lengths_added, pushed, values_in, with_row};

use crate::cells::push_cell;
use crate::column::Column;
use lk_region::Region;
use lk_types::Kind;
use lk_val::{NoMemory, ValueRef};
use std::alloc::Global;

/// Rows in columns, to which rows are added where they stand. A call that fails leaves a cell more in some of the columns
/// than in others, so nothing always holds of it: each call says what it asks for and what it leaves.
#[derive(Drop)]
pub(crate) struct BlockBuilder {
    pub(crate) region: Region,
    pub(crate) columns: Vec<Column>,
    pub(crate) count: u32,
    // The bytes of the text cells.
    pub(crate) text: u64,
}

impl BlockBuilder {
    /// No rows of columns of these kinds.
    pub(crate) fn new(alloc: Global, kinds: &[Kind]) -> Result<BlockBuilder, NoMemory>
        ensures held { IfOk result IsBuilt }
        ensures rows { IfOk result (λ rows. built rows ≡ record { kinds = kinds.now; key = None; rows = [] }) }
    {
        let mut columns = Vec::with_capacity(alloc, kinds.len())?;
        for kind in kinds {
            columns.push(Column::nulls(alloc, *kind, 0))?;
        }
        Ok(BlockBuilder {
            region: Region::new(alloc),
            columns,
            count: 0,
            text: 0,
        })
    }

    /// The number of rows.
    pub(crate) fn len(&self) -> u32
        ensures { result ≡ length (built self.now).rows }
    {
        self.count
    }

    /// Adds a row: a cell for each column, of its kind.
    pub(crate) fn push_row(&mut self, cells: &[ValueRef<'_>]) -> Result<(), NoMemory>
        requires held { IsBuilt self.old }
        requires kinds { are_of_kinds (built self.old).kinds (map value_of_ref cells.now) ≡ true }
        ensures held { OnOk result (IsBuilt self.new) }
        ensures rows { OnOk result (built self.new ≡ with_row (built self.old) (map value_of_ref cells.now)) }
    {
        let Some(count) = self.count.checked_add(1) else {
            return Err(NoMemory);
        };
        let text = add_lengths(self.text, cells)?;
        push_cells(&mut self.region, &mut self.columns, cells)?;
        self.count = count;
        self.text = text;
        Ok(())
    }
}

// Adds a cell to each column, and their texts to the region.
fn push_cells(
    region: &mut Region,
    columns: &mut Vec<Column>,
    cells: &[ValueRef<'_>],
) -> Result<(), NoMemory>
    requires kinds { are_of_kinds (map kind_in columns.old.items) (map value_of_ref cells.now) ≡ true }
    requires marked { All (IsMarked (length region.old)) columns.old.items }
    requires texts { AreText region.old }
    ensures values { OnOk result (map (values_in region.new) columns.new.items
        ≡ pushed (map value_of_ref cells.now) (map (values_in region.old) columns.old.items)) }
    ensures kinds { OnOk result (map kind_in columns.new.items ≡ map kind_in columns.old.items) }
    ensures marked { OnOk result (All (IsMarked (length region.new)) columns.new.items) }
    ensures texts { OnOk result (AreText region.new) }
{
    for i in 0..cells.len() {
        push_cell(region, &mut columns[i], cells[i])?;
    }
    Ok(())
}

// The number of bytes, and those of the texts among some cells.
fn add_lengths(mut text: u64, cells: &[ValueRef<'_>]) -> Result<u64, NoMemory>
    ensures { IfOk result (λ sum. sum ≡ lengths_added text (map value_of_ref cells.now)) }
{
    for cell in cells {
        match text.checked_add(text_length(*cell)) {
            Some(sum) => text = sum,
            None => return Err(NoMemory),
        }
    }
    Ok(text)
}

fn text_length(cell: ValueRef<'_>) -> u64
    ensures { result ≡ text_length (value_of_ref cell.entry) }
{
    match cell {
        ValueRef::Text(text) => text.len() as u64,
        _ => 0,
    }
}
