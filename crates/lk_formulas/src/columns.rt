ghost use Rattle.std.specs.Prelude.{◌≡◌, Some, None, option_map, slice_get, slice_index_or};
ghost use Rattle.std.specs.List.{position};
ghost use Rattle.std.specs.Option.{option_and_then};
ghost use Rattle.lk_val.specs.Texts.{is_same_text};
ghost use Rattle.lk_formulas.specs.Columns.{column_in_rows, column_in_table, column_named, known_kind};

use lk_fields::{Scope, view_at};
use lk_objects::{DeclaredView, DerivedTable, Rows};
use lk_types::{Kind, Schema, TableDef};
use lk_val::Items;

/// The kinds of the columns of each part of a scope, by number; none where a kind can't be told.
#[derive(Drop)]
pub struct ColumnKinds {
    pub parts: Items<Items<Option<Kind>>>,
}

/// What a column of unknown kind is in an expression.
#[derive(Clone, Copy, PartialEq, Eq)]
pub enum UnknownColumn {
    /// It is null, which has every kind and so gives no fault.
    Null,
    /// It is the column itself, which has no kind.
    Kept,
}

/// The number of a part's column of this name: of a stored table as the schema has it, of a derived table as it is declared.
pub fn column_named(
    schema: &Schema,
    views: &[DeclaredView],
    scope: &Scope,
    part: usize,
    name: &str,
) -> Option<usize>
    ensures { result ≡ column_named schema.now views.now scope.now part name.now }
{
    column_in_rows(schema, name, &view_at(views, scope, part)?.rows)
}

fn column_in_rows(schema: &Schema, name: &str, rows: &Rows) -> Option<usize>
    ensures { result ≡ column_in_rows schema.now name.now rows.now }
{
    match rows {
        Rows::Stored(table) => column_in_table(name, table_at(schema, *table)?),
        Rows::Derived(derived) => column_in_derived(name, derived),
    }
}

fn column_in_derived(name: &str, derived: &DerivedTable) -> Option<usize>
    ensures { result ≡ position (λ column. is_same_text column.name name.now) derived.now.columns }
{
    derived
        .columns
        .as_slice()
        .iter()
        .position(|column| column.name.as_str() == name)
}

fn table_at(schema: &Schema, table: Option<u32>) -> Option<&TableDef>
    ensures { option_map (λ t. t.now) result ≡ option_and_then (slice_get schema.now.tables) table }
{
    schema.tables.as_slice().get(table? as usize)
}

fn column_in_table(name: &str, table: &TableDef) -> Option<usize>
    ensures { result ≡ column_in_table name.now (Some table.now) }
{
    table
        .columns
        .as_slice()
        .iter()
        .position(|column| column.name.as_str() == name)
}

/// The kind of a column of a part, if it is known.
pub(crate) fn known_kind(columns: &ColumnKinds, part: u32, column: u32) -> Option<Kind>
    ensures { result ≡ known_kind columns.now part column }
{
    let kinds = columns.parts.as_slice().get(part as usize)?;
    kind_among(kinds.as_slice(), column)
}

fn kind_among(kinds: &[Option<Kind>], column: u32) -> Option<Kind>
    ensures { result ≡ slice_index_or kinds.now column None }
{
    match kinds.get(column as usize) {
        None => None,
        Some(kind) => *kind,
    }
}
