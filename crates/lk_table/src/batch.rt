ghost use Rattle.std.specs.Prelude.{◌≡◌, ◌+◌, ◌<◌, ◌^◌, Err, IfErr, IfOk, IfSome, Ok, OnOk, length, map};
ghost use Rattle.std.specs.List.{All, position};
ghost use Rattle.csv.specs.Records.{fields_of};
ghost use Rattle.lk_csv.specs.Reading.{IsReading, records_left};
ghost use Rattle.lk_val.specs.Memory.{IsUnlessMemory, Unless};
ghost use Rattle.lk_table.specs.Contents.{kind_of, lacks_key, row_at};
ghost use Rattle.lk_table.specs.Columns.{IsBuilt, built};
ghost use Rattle.lk_table.specs.Batches.{batch_from, batch_of, column_at, content_from, rows_behind, with_keys};
ghost use Rattle.lk_table.specs.Reading.{no_rows, record_added, rows_added};
ghost use Rattle.lk_table.specs.Faults.{is_no_memory};
ghost use Rattle.lk_table.specs.Versions.{IsShaped};
ghost use Rattle.lk_table.specs.Widening.{IsOnce};

use crate::block::Block;
use crate::builder::BlockBuilder;
use crate::fault::BatchFault;
use crate::header::{columns_at, places_in};
use crate::parse::read_values;
use csv::{ByteRecord, Reader};
use lk_csv::{reader_over, take_record};
use lk_types::{ColumnDef, Kind, TableDef};
use lk_val::{NoMemory, Text, ValueRef};
use std::alloc::Global;
use std::marker::Model;
use std::sync::Arc;

/// The rows of a batch that was read for a table, held in columns. Clauses see the rows. (lookd)
#[derive(Drop)]
pub struct Batch {
    block: Arc<Block>,
}

impl Model for Batch {
    ghost use Rattle.std.specs.Arc.{arc_value};
    ghost use Rattle.lk_table.specs.Contents.{Content};

    ghost Value = { Content };

    ghost view = { λ batch. arc_value batch.block };
}

impl Batch {
    /// The number of rows.
    pub fn len(&self) -> u32
        ensures { result ≡ length self.now.rows }
    {
        self.block.len()
    }

    /// The rows of the batch.
    pub(crate) fn block(&self) -> &Arc<Block>
        ensures { result.now.value ≡ self.now }
    {
        &self.block
    }
}

/// The rows that a text of comma-separated fields holds for a table. Its first record names columns, each at most once
/// and in any order; a column that is not named is null. Rows count from 1, and the header is row 0. A name or a field
/// that doesn't read is L3, tested over the whole text before a key that is null (L5). (lookd; RFC 4180)
pub fn read_batch(alloc: Global, def: &TableDef, csv: &[u8]) -> Result<Batch, BatchFault>
    ensures value { IsUnlessMemory is_no_memory result (batch_of def.now csv.now) }
    ensures shape { IfOk result (λ batch. IsShaped (map kind_of def.now.columns) def.now.key batch) }
{
    let mut reader = reader_over(alloc, csv);
    let mut header = ByteRecord::new(alloc);
    read_headed(alloc, def, &mut reader, &mut header)
}

// The batch of all the reader's records, of which the first is read into `header`.
fn read_headed(
    alloc: Global,
    def: &TableDef,
    reader: &mut Reader<&[u8]>,
    header: &mut ByteRecord,
) -> Result<Batch, BatchFault>
    requires { IsReading reader.old }
    ensures value { IsUnlessMemory is_no_memory result (batch_from def.now (records_left reader.old)) }
    ensures shape { IfOk result (λ batch. IsShaped (map kind_of def.now.columns) def.now.key batch) }
{
    if !take_record(reader, header)? {
        return Err(BatchFault::L3 {
            row: 0,
            column: Text::new(alloc),
        });
    }
    let places = places_in(alloc, def.columns.as_slice(), header)?;
    let block = read_behind(alloc, def, &places, reader)?;
    Ok(hold(alloc, with_keys(block)?)?)
}

fn hold(alloc: Global, block: Block) -> Result<Batch, NoMemory>
    ensures { IfOk result (λ batch. batch ≡ block) }
{
    Ok(Batch {
        block: Arc::new(alloc, block.shrunk())?,
    })
}

// The rows behind a header that names the columns at these places.
fn read_behind(
    alloc: Global,
    def: &TableDef,
    places: &[usize],
    reader: &mut Reader<&[u8]>,
) -> Result<Block, BatchFault>
    requires places { All (λ place. place < length def.now.columns) places.now }
    requires once { IsOnce places.now }
    requires reading { IsReading reader.old }
    ensures { IsUnlessMemory is_no_memory result
        (content_from def.now (rows_behind def.now.columns (records_left reader.old) places.now)) }
{
    let columns = def.columns.as_slice();
    let kinds = kinds_of(alloc, columns)?;
    let block = read_named(alloc, columns, places, reader)?;
    Ok(block.widened(alloc, &kinds, def.key, places)?)
}

// The rows in the columns at these places alone.
fn read_named(
    alloc: Global,
    columns: &[ColumnDef],
    places: &[usize],
    reader: &mut Reader<&[u8]>,
) -> Result<Block, BatchFault>
    requires places { All (λ place. place < length columns.now) places.now }
    requires reading { IsReading reader.old }
    ensures value { IsUnlessMemory is_no_memory result (rows_added (map (column_at columns.now) places.now)
        (no_rows (map (column_at columns.now) places.now)) (records_left reader.old)) }
    ensures kinds { IfOk result (λ block. block.kinds ≡ map kind_of (map (column_at columns.now) places.now)) }
{
    let named = columns_at(alloc, columns, places)?;
    read_rows(alloc, &named, reader)
}

// The values of all the reader's records, in the columns that the header names.
fn read_rows(
    alloc: Global,
    named: &[&ColumnDef],
    reader: &mut Reader<&[u8]>,
) -> Result<Block, BatchFault>
    requires { IsReading reader.old }
    ensures value { IsUnlessMemory is_no_memory result (rows_added (map (λ column. column.now) named.now)
        (no_rows (map (λ column. column.now) named.now)) (records_left reader.old)) }
    ensures kinds { IfOk result (λ block. block.kinds ≡ map kind_of (map (λ column. column.now) named.now)) }
{
    let mut rows = empty_rows(alloc, named)?;
    let mut record = ByteRecord::new(alloc);
    while take_record(reader, &mut record)? {
        add_record(alloc, named, &record, &mut rows)?;
    }
    Ok(Block::built(rows, None))
}

fn empty_rows(alloc: Global, named: &[&ColumnDef]) -> Result<BlockBuilder, NoMemory>
    ensures held { IfOk result IsBuilt }
    ensures rows { IfOk result (λ rows. built rows ≡ no_rows (map (λ column. column.now) named.now)) }
{
    let kinds = named_kinds(alloc, named)?;
    BlockBuilder::new(alloc, &kinds)
}

// Adds the values of a record to the rows.
fn add_record(
    alloc: Global,
    named: &[&ColumnDef],
    csv_record: &ByteRecord,
    rows: &mut BlockBuilder,
) -> Result<(), BatchFault>
    requires held { IsBuilt rows.old }
    requires kinds { (built rows.old).kinds ≡ map kind_of (map (λ column. column.now) named.now) }
    ensures held { OnOk result (IsBuilt rows.new) }
    ensures rows { OnOk result (Ok (built rows.new)
        ≡ record_added (map (λ column. column.now) named.now) (built rows.old) (fields_of csv_record.now)) }
    ensures fault { IfErr result (λ fault. Unless (is_no_memory fault) (Err fault
        ≡ record_added (map (λ column. column.now) named.now) (built rows.old) (fields_of csv_record.now))) }
{
    let Some(row) = rows.len().checked_add(1) else {
        return Err(BatchFault::NoMemory);
    };
    let values = read_values(alloc, row, named, csv_record)?;
    Ok(rows.push_row(&values)?)
}

// The kinds of the columns that the header names.
fn named_kinds(alloc: Global, named: &[&ColumnDef]) -> Result<Vec<Kind>, NoMemory>
    ensures { IfOk result (λ kinds. kinds.items ≡ map kind_of (map (λ column. column.now) named.now)) }
{
    let mut kinds = Vec::with_capacity(alloc, named.len())?;
    for column in named {
        kinds.push(column.kind)?;
    }
    Ok(kinds)
}

/// The kinds of the columns.
pub(crate) fn kinds_of(alloc: Global, columns: &[ColumnDef]) -> Result<Vec<Kind>, NoMemory>
    ensures { IfOk result (λ kinds. kinds.items ≡ map kind_of columns.now) }
{
    let mut kinds = Vec::with_capacity(alloc, columns.len())?;
    for column in columns {
        kinds.push(column.kind)?;
    }
    Ok(kinds)
}

// The block, unless a row lacks its key.
fn with_keys(block: Block) -> Result<Block, BatchFault>
    ensures { result ≡ with_keys block }
{
    match null_row(&block) {
        Some(row) => Err(BatchFault::L5(row + 1)),
        None => Ok(block),
    }
}

// The place of the first row that lacks its key.
fn null_row(block: &Block) -> Option<u32>
    ensures value { result ≡ position (lacks_key block.now.key) block.now.rows }
    ensures small { IfSome result (λ row. row + 1 < 2 ^ 32) }
{
    for row in 0..block.len() {
        if lacks_key(block, row) {
            return Some(row);
        }
    }
    None
}

fn lacks_key(block: &Block, row: u32) -> bool
    requires { row < length block.now.rows }
    ensures { result ≡ lacks_key block.now.key (row_at block.now.rows row) }
{
    match block.key() {
        Some(column) => match block.cell(row, column) {
            ValueRef::Null => true,
            _ => false,
        },
        None => false,
    }
}
