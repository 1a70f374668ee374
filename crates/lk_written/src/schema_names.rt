ghost use Rattle.std.specs.Prelude.{◌≡◌};
ghost use Rattle.std.specs.List.{position};
ghost use Rattle.lk_val.specs.Texts.{is_same_text};
ghost use Rattle.lk_written.specs.SchemaNames.{column_number, table_number};

use lk_types::{Schema, TableDef};

/// The number of a table in the schema.
pub fn table_number(schema: &Schema, name: &[u8]) -> Option<usize>
    ensures { result ≡ table_number schema.now name.now }
{
    schema
        .tables
        .as_slice()
        .iter()
        .position(|table| table.name.as_bytes() == name)
}

/// The number of a column of a table.
pub fn column_number(schema: &Schema, table: usize, name: &[u8]) -> Option<usize>
    ensures { result ≡ column_number schema.now table name.now }
{
    match schema.tables.as_slice().get(table) {
        None => None,
        Some(table) => column_of(table, name),
    }
}

fn column_of(table: &TableDef, name: &[u8]) -> Option<usize>
    ensures { result ≡ position (λ column. is_same_text column.name name.now) table.now.columns }
{
    table
        .columns
        .as_slice()
        .iter()
        .position(|column| column.name.as_bytes() == name)
}
