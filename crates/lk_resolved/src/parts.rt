ghost use Rattle.std.specs.Prelude.{◌≡◌, ◌&&◌, ◌==◌, ◌++◌, IfOk, drop, option_map, slice_get, take};
ghost use Rattle.std.specs.List.{count_by};
ghost use Rattle.lk_resolved.specs.Explores.{derived_number, enforced_with, is_derived, key_formula, key_if, key_of_table, origin_if, origin_of, origin_with, part_with, parts_from, table_key, table_key_in, view_of_part};
ghost use Rattle.lk_resolved.specs.Told.{IsModelTold};

use crate::column::column_in;
use crate::formulas::ModelFields;
use lk_fields::ScopePart;
use lk_objects::{DeclaredView, Rows};
use lk_types::{Expr, Origin, Part, Schema, TableDef};
use lk_val::{Items, NoMemory};
use std::alloc::Global;

// The parts of an explore: the base view and the joined ones.
pub(crate) fn parts(alloc: Global, model: &ModelFields) -> Result<Items<Part>, NoMemory>
    requires told { IsModelTold model.now }
    ensures { IfOk result (λ parts. parts
        ≡ parts_from model.now.fields.now.schema.now model.now.fields.now.views.now model.now.fields.now.scope.now model.now.fields.now.columns.now 0 model.now.fields.now.scope.now.parts) }
{
    let mut parts = Items::new(alloc);
    let mut number = 0usize;
    for part in model.fields.scope.parts.as_slice() {
        parts.push(part_with(alloc, model, number, part)?)?;
        number += 1;
    }
    Ok(parts)
}

fn part_with(
    alloc: Global,
    model: &ModelFields,
    number: usize,
    part: &ScopePart,
) -> Result<Part, NoMemory>
    requires told { IsModelTold model.now }
    ensures { IfOk result (λ made. made
        ≡ part_with model.now.fields.now.schema.now model.now.fields.now.views.now model.now.fields.now.scope.now model.now.fields.now.columns.now number part.now) }
{
    let fields = model.fields;
    let key = key_formula(alloc, model, number)?;
    let table_key = table_key(fields.schema, view_of_part(fields.views, part));
    let enforced = enforced_with(number, column_in(alloc, &key)?, table_key);
    Ok(Part {
        name: part.name.copy(alloc)?,
        origin: origin_of(fields.views, part.view)?,
        key,
        enforced,
    })
}

// The formula of the primary key of a part.
pub(crate) fn key_formula(
    alloc: Global,
    model: &ModelFields,
    part: usize,
) -> Result<Option<Expr>, NoMemory>
    requires told { IsModelTold model.now }
    ensures { IfOk result (λ key. key
        ≡ key_formula model.now.fields.now.schema.now model.now.fields.now.views.now model.now.fields.now.scope.now model.now.fields.now.columns.now part) }
{
    match model.fields.key_of(part)? {
        None => Ok(None),
        Some(place) => Ok(Some(model.field(alloc, place)?)),
    }
}

fn view_of_part<'a>(views: &'a [DeclaredView], part: &ScopePart) -> Option<&'a DeclaredView>
    ensures { option_map (λ v. v.now) result ≡ view_of_part views.now part.now }
{
    views.get(part.view? as usize)
}

// The key column of the stored table that a view reads.
fn table_key(schema: &Schema, view: Option<&DeclaredView>) -> Option<u32>
    ensures { result ≡ table_key schema.now (option_map (λ v. v.now) view.entry) }
{
    match view {
        None => None,
        Some(view) => table_key_in(schema, &view.rows),
    }
}

fn table_key_in(schema: &Schema, rows: &Rows) -> Option<u32>
    ensures { result ≡ table_key_in schema.now rows.now }
{
    match rows {
        Rows::Stored(Some(table)) => key_of_table(schema.tables.as_slice().get(*table as usize)),
        Rows::Stored(None) | Rows::Derived(_) => None,
    }
}

fn key_of_table(table: Option<&TableDef>) -> Option<u32>
    ensures { result ≡ key_of_table (option_map (λ t. t.now) table.entry) }
{
    match table {
        None => None,
        Some(table) => table.key,
    }
}

// The key column of a part's table, where the primary key is that column.
fn enforced_with(part: usize, key: Option<(u32, u32)>, column: Option<u32>) -> Option<u32>
    ensures { result ≡ enforced_with part key column }
{
    let (Some((of, of_column)), Some(column)) = (key, column) else {
        return None;
    };
    if of as usize == part && of_column == column {
        Some(column)
    } else {
        None
    }
}

// Where the rows of the view of a number come from.
fn origin_of(views: &[DeclaredView], view: Option<u32>) -> Result<Origin, NoMemory>
    ensures { IfOk result (λ origin. origin ≡ origin_of views.now view) }
{
    match view {
        None => Ok(Origin::Stored(0)),
        Some(number) => origin_if(views, number as usize),
    }
}

fn origin_if(views: &[DeclaredView], number: usize) -> Result<Origin, NoMemory>
    ensures { IfOk result (λ origin. origin ≡ origin_if views.now number (slice_get views.now number)) }
{
    match views.get(number) {
        None => Ok(Origin::Stored(0)),
        Some(view) => origin_with(views, number, &view.rows),
    }
}

fn origin_with(views: &[DeclaredView], number: usize, rows: &Rows) -> Result<Origin, NoMemory>
    ensures { IfOk result (λ origin. origin ≡ origin_with views.now number rows.now) }
{
    match rows {
        Rows::Stored(None) => Ok(Origin::Stored(0)),
        Rows::Stored(Some(table)) => Ok(Origin::Stored(*table)),
        Rows::Derived(_) => Ok(Origin::Derived(derived_number(views, number)?)),
    }
}

// The number of a derived table: how many stand before it. A number past 32 bits wants memory.
fn derived_number(views: &[DeclaredView], number: usize) -> Result<u32, NoMemory>
    ensures { IfOk result (λ n. n ≡ derived_number views.now number) }
{
    let (before, _) = views.split_at(number.min(views.len()));
    derived_count(before)
}

fn derived_count(views: &[DeclaredView]) -> Result<u32, NoMemory>
    ensures { IfOk result (λ n. n ≡ count_by is_derived views.now) }
{
    let count = views.iter().filter(|view| is_derived(view)).count();
    u32::try_from(count).map_err(|_| NoMemory)
}

fn is_derived(view: &DeclaredView) -> bool
    ensures { result ≡ is_derived view.now }
{
    match view.rows {
        Rows::Stored(_) => false,
        Rows::Derived(_) => true,
    }
}
