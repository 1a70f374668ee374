ghost use Rattle.std.specs.Prelude.{◌≡◌, IfOk, map, option_map, slice_get};
ghost use Rattle.std.specs.Option.{option_and_then};
ghost use Rattle.lk_scope.specs.Scopes.{scope_of};
ghost use Rattle.lk_scope.specs.Told.{IsTold};
ghost use Rattle.lk_model.specs.ViewKinds.{column_kind, derived_kinds, kind_of_dimension, kind_of_measure, kinds_in, round, rounds, row_kinds, source_named, table_kinds, taken_kind};

use crate::same::are_same;
use lk_fields::{Found, Scope, ScopePart};
use lk_formulas::{ColumnKinds, FieldTable, UnknownColumn};
use lk_objects::{Declared, DeclaredColumn, DeclaredExplore, DeclaredView, Rows};
use lk_scope::{ScopeFields, explore_named, scope_of};
use lk_types::{ColumnDef, Kind, Schema, TableDef};
use lk_val::{Items, NoMemory, Text};
use std::alloc::Global;

/// The kinds of the columns that the rows of each view have, by the view's number; none where a kind can't be told.
#[derive(Drop)]
pub struct ViewKinds {
    pub views: Items<Items<Option<Kind>>>,
}

impl ViewKinds {
    ghost use Rattle.std.specs.Prelude.{◌≡◌, IfOk};
    ghost use Rattle.lk_model.specs.ViewKinds.{columns_in, kinds_of, part_kinds};

    /// The kinds that the schema gives to stored tables, and to derived tables the fields that their columns take: the
    /// dimension of that name, or else the measure. (Looker, LookML reference: sql_table_name, derived_table; lookd)
    pub fn of(alloc: Global, schema: &Schema, declared: &Declared) -> Result<ViewKinds, NoMemory>
        ensures { IfOk result (λ kinds. kinds ≡ kinds_of schema.now declared.now) }
    {
        let unknown = ViewKinds {
            views: Items::new(alloc),
        };
        let kinds = round(alloc, schema, declared, &unknown)?;
        rounds(alloc, schema, declared, declared.views.len(), kinds)
    }

    /// The kinds of the columns of the parts of a scope.
    pub fn columns_in(&self, alloc: Global, scope: &Scope) -> Result<ColumnKinds, NoMemory>
        ensures { IfOk result (λ columns. columns ≡ columns_in self.now scope.now) }
    {
        let mut parts = Items::new(alloc);
        for part in scope.parts.as_slice() {
            parts.push(self.part_kinds(alloc, part)?)?;
        }
        Ok(ColumnKinds { parts })
    }

    fn part_kinds(&self, alloc: Global, part: &ScopePart) -> Result<Items<Option<Kind>>, NoMemory>
        ensures { IfOk result (λ kinds. kinds ≡ part_kinds self.now part.now) }
    {
        match part.view {
            None => Ok(Items::new(alloc)),
            Some(number) => match self.views.as_slice().get(number as usize) {
                None => Ok(Items::new(alloc)),
                Some(kinds) => kinds.copy_plain(alloc),
            },
        }
    }
}

// So many rounds more, or fewer where one changes nothing.
fn rounds(
    alloc: Global,
    schema: &Schema,
    declared: &Declared,
    most: usize,
    kinds: ViewKinds,
) -> Result<ViewKinds, NoMemory>
    ensures { IfOk result (λ made. made ≡ rounds schema.now declared.now most kinds) }
{
    let mut kinds = kinds;
    for _round in 0..most {
        let next = round(alloc, schema, declared, &kinds)?;
        if are_same(&next, &kinds) {
            return Ok(kinds);
        }
        kinds = next;
    }
    Ok(kinds)
}

fn round(
    alloc: Global,
    schema: &Schema,
    declared: &Declared,
    kinds: &ViewKinds,
) -> Result<ViewKinds, NoMemory>
    ensures { IfOk result (λ made. made ≡ round schema.now declared.now kinds.now) }
{
    let mut views = Items::new(alloc);
    for view in declared.views.as_slice() {
        views.push(row_kinds(alloc, schema, declared, kinds, &view.rows)?)?;
    }
    Ok(ViewKinds { views })
}

fn row_kinds(
    alloc: Global,
    schema: &Schema,
    declared: &Declared,
    kinds: &ViewKinds,
    rows: &Rows,
) -> Result<Items<Option<Kind>>, NoMemory>
    ensures { IfOk result (λ made. made ≡ row_kinds schema.now declared.now kinds.now rows.now) }
{
    match rows {
        Rows::Stored(table) => table_kinds(alloc, table_at(schema, *table)),
        Rows::Derived(derived) => {
            let source = source_named(declared.explores.as_slice(), &derived.explore);
            let columns = derived.columns.as_slice();
            let views = declared.views.as_slice();
            derived_kinds(alloc, schema, views, kinds, columns, source)
        }
    }
}

fn table_at(schema: &Schema, table: Option<u32>) -> Option<&TableDef>
    ensures { option_map (λ t. t.now) result ≡ option_and_then (slice_get schema.now.tables) table }
{
    schema.tables.as_slice().get(table? as usize)
}

fn table_kinds(alloc: Global, table: Option<&TableDef>) -> Result<Items<Option<Kind>>, NoMemory>
    ensures { IfOk result (λ kinds. kinds ≡ table_kinds (option_map (λ t. t.now) table.entry)) }
{
    match table {
        None => Ok(Items::new(alloc)),
        Some(table) => kinds_of_columns(alloc, table.columns.as_slice()),
    }
}

fn kinds_of_columns(alloc: Global, columns: &[ColumnDef]) -> Result<Items<Option<Kind>>, NoMemory>
    ensures { IfOk result (λ kinds. kinds ≡ map column_kind columns.now) }
{
    let mut kinds = Items::new(alloc);
    for column in columns {
        kinds.push(Some(column.kind))?;
    }
    Ok(kinds)
}

// The explore that a derived table is made from.
pub(crate) fn source_named<'a>(
    explores: &'a [DeclaredExplore],
    name: &Option<Text>,
) -> Option<&'a DeclaredExplore>
    ensures { option_map (λ x. x.now) result ≡ source_named explores.now name.now }
{
    match name {
        None => None,
        Some(name) => explore_named(explores, name.as_str()),
    }
}

fn derived_kinds(
    alloc: Global,
    schema: &Schema,
    views: &[DeclaredView],
    kinds: &ViewKinds,
    columns: &[DeclaredColumn],
    source: Option<&DeclaredExplore>,
) -> Result<Items<Option<Kind>>, NoMemory>
    ensures { IfOk result (λ made. made
        ≡ derived_kinds schema.now views.now kinds.now columns.now (option_map (λ x. x.now) source.entry)) }
{
    match source {
        None => Ok(Items::new(alloc)),
        Some(source) => kinds_over(alloc, schema, views, kinds, source, columns),
    }
}

fn kinds_over(
    alloc: Global,
    schema: &Schema,
    views: &[DeclaredView],
    kinds: &ViewKinds,
    source: &DeclaredExplore,
    columns: &[DeclaredColumn],
) -> Result<Items<Option<Kind>>, NoMemory>
    ensures { IfOk result (λ made. made ≡ kinds_in schema.now views.now kinds.now (scope_of views.now source.now) columns.now) }
{
    let scope = scope_of(alloc, views, source)?;
    kinds_in(alloc, schema, views, kinds, &scope, columns)
}

fn kinds_in(
    alloc: Global,
    schema: &Schema,
    views: &[DeclaredView],
    kinds: &ViewKinds,
    scope: &Scope,
    columns: &[DeclaredColumn],
) -> Result<Items<Option<Kind>>, NoMemory>
    ensures { IfOk result (λ made. made ≡ kinds_in schema.now views.now kinds.now scope.now columns.now) }
{
    let known = kinds.columns_in(alloc, scope)?;
    kinds_with(alloc, schema, views, scope, &known, columns)
}

fn kinds_with(
    alloc: Global,
    schema: &Schema,
    views: &[DeclaredView],
    scope: &Scope,
    known: &ColumnKinds,
    columns: &[DeclaredColumn],
) -> Result<Items<Option<Kind>>, NoMemory>
    ensures { IfOk result (λ made. made ≡ map (taken_kind schema.now views.now scope.now known.now) columns.now) }
{
    let table = FieldTable::of(alloc, schema, views, scope, known, UnknownColumn::Null)?;
    let fields = ScopeFields {
        schema,
        views,
        scope,
        columns: known,
        table: &table,
    };
    taken_kinds(alloc, &fields, columns)
}

fn taken_kinds(
    alloc: Global,
    fields: &ScopeFields,
    columns: &[DeclaredColumn],
) -> Result<Items<Option<Kind>>, NoMemory>
    requires { IsTold fields.now }
    ensures { IfOk result (λ made. made
        ≡ map (taken_kind fields.now.schema.now fields.now.views.now fields.now.scope.now fields.now.columns.now) columns.now) }
{
    let mut made = Items::new(alloc);
    for column in columns {
        made.push(taken_kind(fields, column)?)?;
    }
    Ok(made)
}

fn taken_kind(fields: &ScopeFields, column: &DeclaredColumn) -> Result<Option<Kind>, NoMemory>
    requires { IsTold fields.now }
    ensures { IfOk result (λ kind. kind
        ≡ taken_kind fields.now.schema.now fields.now.views.now fields.now.scope.now fields.now.columns.now column.now) }
{
    let dimension = fields.dimension_named(column.field.as_str())?;
    let measure = fields.measure_named(column.field.as_str())?;
    Ok(kind_of_dimension(fields, dimension, measure))
}

fn kind_of_dimension(
    fields: &ScopeFields,
    dimension: Option<Found>,
    measure: Option<Found>,
) -> Option<Kind>
    requires { IsTold fields.now }
    ensures { result
        ≡ kind_of_dimension fields.now.schema.now fields.now.views.now fields.now.scope.now fields.now.columns.now dimension measure }
{
    match dimension {
        Some(found) => fields.table.field_kind(fields.views, fields.scope, found),
        None => kind_of_measure(fields, measure),
    }
}

fn kind_of_measure(fields: &ScopeFields, measure: Option<Found>) -> Option<Kind>
    requires { IsTold fields.now }
    ensures { result
        ≡ kind_of_measure fields.now.schema.now fields.now.views.now fields.now.scope.now fields.now.columns.now measure }
{
    match measure {
        None => None,
        Some(found) => fields
            .table
            .measure_kind(fields.views, fields.scope, found.place),
    }
}
