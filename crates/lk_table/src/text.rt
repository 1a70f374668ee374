ghost use Rattle.std.specs.Prelude.{◌≡◌, ◌++◌, ◌<◌, IfOk, OnOk, length, map};
ghost use Rattle.lk_csv.specs.Records.{record_text, records_text};
ghost use Rattle.lk_val.specs.ValueRefs.{value_of_ref};
ghost use Rattle.lk_table.specs.Contents.{row_at};
ghost use Rattle.lk_table.specs.BatchTexts.{batch_text, fields_of_row, marked, names_of, text_records};

use crate::batch::Batch;
use crate::block::Block;
use lk_csv::write_record;
use lk_types::{ColumnDef, Shape, TableDef, print_cell};
use lk_val::{Bytes, Cell, NoMemory, Text, ValueRef};
use std::alloc::Global;

/// U+FEFF in UTF-8.
const BYTE_ORDER_MARK: [u8; 3] = [0xEF, 0xBB, 0xBF];

/// The canonical text of a batch that was read for the table: the names of all columns in order, and then the rows.
/// Reading it gives the batch. A text that begins with a byte order mark has one more in front, since a reader skips
/// one. (lookd; RFC 4180)
pub fn batch_text(alloc: Global, def: &TableDef, b: &Batch) -> Result<Bytes, NoMemory>
    ensures { IfOk result (λ text. text ≡ batch_text def.now b.now) }
{
    let names = names_of(alloc, def.columns.as_slice())?;
    let mut text = write_record(alloc, &names)?;
    add_rows(alloc, &**b.block(), &mut text)?;
    marked(alloc, text)
}

fn names_of(alloc: Global, columns: &[ColumnDef]) -> Result<Vec<Text>, NoMemory>
    ensures { IfOk result (λ names. names.items ≡ names_of columns.now) }
{
    let mut names = Vec::with_capacity(alloc, columns.len())?;
    for column in columns {
        names.push(column.name.copy(alloc)?)?;
    }
    Ok(names)
}

// Adds the rows of a block to a text.
fn add_rows(alloc: Global, block: &Block, text: &mut Bytes) -> Result<(), NoMemory>
    ensures { OnOk result (text.new ≡ text.old ++ records_text (map fields_of_row block.now.rows)) }
{
    for row in 0..block.len() {
        let line = row_text(alloc, block, row)?;
        text.append(line.as_slice())?;
    }
    Ok(())
}

fn row_text(alloc: Global, block: &Block, row: u32) -> Result<Bytes, NoMemory>
    requires { row < length block.now.rows }
    ensures { IfOk result (λ text. text ≡ record_text (fields_of_row (row_at block.now.rows row))) }
{
    let cells = block.row(alloc, row)?;
    let fields = printed(alloc, &cells)?;
    write_record(alloc, &fields)
}

fn printed(alloc: Global, cells: &[ValueRef<'_>]) -> Result<Vec<Text>, NoMemory>
    ensures { IfOk result (λ fields. fields.items ≡ fields_of_row (map value_of_ref cells.now)) }
{
    let mut fields = Vec::with_capacity(alloc, cells.len())?;
    for cell in cells {
        let value = Cell::Value(cell.to_value(alloc)?);
        fields.push(print_cell(alloc, &value, &Shape::Plain)?)?;
    }
    Ok(fields)
}

// The text, and a byte order mark before it where it begins with one.
fn marked(alloc: Global, text: Bytes) -> Result<Bytes, NoMemory>
    ensures { IfOk result (λ all. all ≡ marked text) }
{
    if !text.as_slice().starts_with(&BYTE_ORDER_MARK) {
        return Ok(text);
    }
    let mut all = Bytes::from_slice(alloc, &BYTE_ORDER_MARK)?;
    all.append(text.as_slice())?;
    Ok(all)
}
