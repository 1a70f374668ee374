ghost use Rattle.std.specs.Prelude.{◌≡◌, IfOk};
ghost use Rattle.lk_val.specs.Memory.{IsUnlessMemory, is_no_memory};
ghost use Rattle.lk_schema.specs.Schemas.{column_line, declared_as, declared_of, fault_in, is_header, key_mark, kind_of, schema_from, schema_of, schema_unless, second_column, second_key, table_of_key};

use crate::again::{StandsOnce, first_again};
use crate::rows::{TableText, is_same_text, read_rows, row_line};
use crate::tables::tables_of;
use lk_csv::read_records;
use lk_types::{Kind, Schema};
use lk_val::{Bytes, FaultLine, Items, ModelFault, NoMemory, Text};
use std::alloc::Global;

const FILE: &str = "schema.csv";

/// A column that a row declares: its table, its name, its kind, and whether it is the table's key.
#[derive(Drop)]
pub struct Declared {
    pub table: Text,
    pub column: Text,
    pub kind: Kind,
    pub is_key: bool,
}

/// The schema that a text declares: its tables in the order of first standing, each with its columns in order. A row of
/// another shape is C1, tested over the whole text before a column twice in its table (C2) and a second key (C3). (lookd)
pub fn read_schema(alloc: Global, bytes: &[u8]) -> Result<Schema, ModelFault>
    ensures { IsUnlessMemory is_no_memory result (schema_of bytes.now) }
{
    let records = read_records(alloc, bytes)?;
    schema_from(alloc, records.as_slice())
}

fn schema_from(alloc: Global, records: &[Items<Bytes>]) -> Result<Schema, ModelFault>
    ensures { IsUnlessMemory is_no_memory result (schema_from records.now) }
{
    let rows = read_rows(alloc, "C1", FILE, &SchemaText, records)?;
    schema_over(alloc, rows.as_slice())
}

fn schema_over(alloc: Global, rows: &[Declared]) -> Result<Schema, ModelFault>
    ensures { IsUnlessMemory is_no_memory result (schema_unless (fault_in rows.now) rows.now) }
{
    match fault_in(alloc, rows)? {
        Some(fault) => Err(ModelFault::Fault(fault)),
        None => Ok(Schema {
            tables: tables_of(alloc, rows)?,
        }),
    }
}

fn fault_in(alloc: Global, rows: &[Declared]) -> Result<Option<FaultLine>, NoMemory>
    ensures { IfOk result (λ fault. fault ≡ fault_in rows.now) }
{
    match second_column(alloc, rows)? {
        Some(fault) => Ok(Some(fault)),
        None => second_key(alloc, rows),
    }
}

fn second_column(alloc: Global, rows: &[Declared]) -> Result<Option<FaultLine>, NoMemory>
    ensures { IfOk result (λ fault. fault ≡ second_column rows.now) }
{
    first_again(alloc, &OneColumn, rows)
}

fn second_key(alloc: Global, rows: &[Declared]) -> Result<Option<FaultLine>, NoMemory>
    ensures { IfOk result (λ fault. fault ≡ second_key rows.now) }
{
    first_again(alloc, &OneKey, rows)
}

#[derive(Drop)]
struct SchemaText;

impl TableText for SchemaText {
    type Row = Declared;

    ghost is_header = { is_header };

    ghost row_of = { declared_of };

    fn is_header(&self, fields: &[Bytes]) -> bool {
        match fields {
            [table, column, kind, key] => {
                is_same_text(table.as_slice(), b"table")
                    && is_same_text(column.as_slice(), b"column")
                    && is_same_text(kind.as_slice(), b"kind")
                    && is_same_text(key.as_slice(), b"key")
            }
            _ => false,
        }
    }

    fn row_of(&self, alloc: Global, fields: &[Bytes]) -> Result<Option<Declared>, NoMemory> {
        match fields {
            [table, column, kind, key] => declared_as(
                Text::from_utf8(alloc, table.as_slice())?,
                Text::from_utf8(alloc, column.as_slice())?,
                kind_of(kind.as_slice()),
                key_mark(key.as_slice()),
            ),
            _ => Ok(None),
        }
    }
}

fn declared_as(
    table: Option<Text>,
    column: Option<Text>,
    kind: Option<Kind>,
    is_key: Option<bool>,
) -> Result<Option<Declared>, NoMemory>
    ensures { IfOk result (λ row. row ≡ declared_as table column kind is_key) }
{
    match (table, column, kind, is_key) {
        (Some(table), Some(column), Some(kind), Some(is_key)) => Ok(Some(Declared {
            table,
            column,
            kind,
            is_key,
        })),
        _ => Ok(None),
    }
}

fn kind_of(word: &[u8]) -> Option<Kind>
    ensures { result ≡ kind_of word.now }
{
    if is_same_text(word, b"text") {
        Some(Kind::Text)
    } else if is_same_text(word, b"number") {
        Some(Kind::Number)
    } else if is_same_text(word, b"yesno") {
        Some(Kind::Truth)
    } else if is_same_text(word, b"day") {
        Some(Kind::Day)
    } else if is_same_text(word, b"moment") {
        Some(Kind::Moment)
    } else {
        None
    }
}

fn key_mark(field: &[u8]) -> Option<bool>
    ensures { result ≡ key_mark field.now }
{
    if field.is_empty() {
        Some(false)
    } else if is_same_text(field, b"yes") {
        Some(true)
    } else {
        None
    }
}

// A table has each of its columns once.
#[derive(Drop)]
struct OneColumn;

impl StandsOnce for OneColumn {
    ghost use Rattle.std.specs.Prelude.{Some, codes};

    type Row = Declared;

    type Mark = (Text, Text);

    ghost mark_of = { λ row. Some (row.table, row.column) };

    ghost line_of = { column_line (codes "C2") };

    fn mark_of(&self, alloc: Global, row: &Declared) -> Result<Option<(Text, Text)>, NoMemory> {
        Ok(Some((row.table.copy(alloc)?, row.column.copy(alloc)?)))
    }

    fn line_of(&self, alloc: Global, number: usize, row: &Declared) -> Result<FaultLine, NoMemory> {
        column_line(alloc, "C2", number, row)
    }
}

// A table has at most one key.
#[derive(Drop)]
struct OneKey;

impl StandsOnce for OneKey {
    ghost use Rattle.std.specs.Prelude.{codes};

    type Row = Declared;

    type Mark = Text;

    ghost mark_of = { table_of_key };

    ghost line_of = { column_line (codes "C3") };

    fn mark_of(&self, alloc: Global, row: &Declared) -> Result<Option<Text>, NoMemory> {
        if row.is_key {
            Ok(Some(row.table.copy(alloc)?))
        } else {
            Ok(None)
        }
    }

    fn line_of(&self, alloc: Global, number: usize, row: &Declared) -> Result<FaultLine, NoMemory> {
        column_line(alloc, "C3", number, row)
    }
}

fn column_line(
    alloc: Global,
    code: &str,
    number: usize,
    row: &Declared,
) -> Result<FaultLine, NoMemory>
    ensures { IfOk result (λ line. line ≡ column_line code.now number row.now) }
{
    row_line(
        alloc,
        code,
        FILE,
        number,
        row.table.as_str(),
        row.column.as_str(),
    )
}
