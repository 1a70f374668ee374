ghost use Rattle.std.specs.Prelude.{◌≡◌, ◌<◌, IfOk, None, length, map, slice_index_or, true};
ghost use Rattle.std.specs.List.{list_all};
ghost use Rattle.lk_fields.specs.Existing.{all_places, field_at};
ghost use Rattle.lk_fields.specs.Rows.{row_at};
ghost use Rattle.lk_formulas.specs.Filling.{AreRight, IsRound, IsStep, is_due, is_kept, is_ready};
ghost use Rattle.lk_formulas.specs.Formulas.{ends};
ghost use Rattle.lk_formulas.specs.Resolved.{field_kept, field_told};
ghost use Rattle.lk_formulas.specs.Told.{IsFieldTold};

use crate::code::{number_size, put, resolved_code, resolved_null};
use crate::columns::{ColumnKinds, UnknownColumn};
use crate::referent::Names;
use crate::resolved::ResolvedField;
use crate::stand_in::field_numbered;
use lk_fields::{Place, Row, Rule, Writer, field_at, rows_of};
use lk_val::{Items, NoMemory};
use std::alloc::Global;

// What is kept of the field at a place, where all that it refers to is told.
fn resolved_at(
    alloc: Global,
    names: &Names,
    columns: &ColumnKinds,
    unknown: UnknownColumn,
    fields: &[Option<ResolvedField>],
    place: Place,
) -> Result<ResolvedField, NoMemory>
    ensures { ends names.now.views.now names.now.scope.now place ≡ true
        → IsFieldTold names.now.schema.now names.now.views.now names.now.scope.now columns.now unknown names.now.places.now fields.now place (field_at names.now.views.now names.now.scope.now place)
        → IfOk result (λ field. field ≡ field_kept names.now.schema.now names.now.views.now names.now.scope.now columns.now unknown place) }
{
    let Some(field) = field_at(names.views, names.scope, place) else {
        return Ok(ResolvedField {
            code: resolved_null(alloc)?,
            number_size: 1,
        });
    };
    let writer = Writer::Field(place.part);
    let code = resolved_code(alloc, names, columns, unknown, fields, writer, &field.sql)?;
    let number_size = number_size(alloc, names, fields, place.part, &field.sql)?;
    Ok(ResolvedField { code, number_size })
}

// Whether the field of a number is not kept, and all that it refers to is.
fn is_due(fields: &[Option<ResolvedField>], number: usize, row: &Row) -> bool
    ensures { result ≡ is_due fields.now number row.now }
{
    !is_kept(fields, number) && is_ready(fields, row)
}

fn is_kept(fields: &[Option<ResolvedField>], number: usize) -> bool
    ensures { result ≡ is_kept fields.now number }
{
    field_numbered(fields, number).is_some()
}

fn is_ready(fields: &[Option<ResolvedField>], row: &Row) -> bool
    ensures { result ≡ is_ready fields.now row.now }
{
    !row.lacks && are_all_kept(fields, row.names.as_slice())
}

fn are_all_kept(fields: &[Option<ResolvedField>], numbers: &[usize]) -> bool
    ensures { result ≡ list_all (is_kept fields.now) numbers.now }
{
    for number in numbers {
        if !is_kept(fields, *number) {
            return false;
        }
    }
    true
}

// Keeps the field of a number if it is due, and answers whether it was.
fn fill_one(
    alloc: Global,
    names: &Names,
    columns: &ColumnKinds,
    unknown: UnknownColumn,
    number: usize,
    place: Place,
    row: &Row,
    fields: &mut [Option<ResolvedField>],
) -> Result<bool, NoMemory>
    requires places { names.now.places.now ≡ all_places names.now.views.now names.now.scope.now }
    requires number { number < length names.now.places.now }
    requires place { place ≡ slice_index_or names.now.places.now number place }
    requires row { row.now ≡ row_at Rule.Ends names.now.views.now names.now.scope.now names.now.places.now place }
    requires right { AreRight names.now.schema.now names.now.views.now names.now.scope.now columns.now unknown names.now.places.now fields.old }
    ensures { IfOk result (IsStep names.now.schema.now names.now.views.now names.now.scope.now columns.now unknown names.now.places.now number row.now fields.old fields.new) }
{
    if !is_due(fields, number, row) {
        return Ok(false);
    }
    let field = resolved_at(alloc, names, columns, unknown, fields, place)?;
    put(fields, number, field);
    Ok(true)
}

// Keeps each field that is due, in order, and answers whether there was one.
fn fill_round(
    alloc: Global,
    names: &Names,
    columns: &ColumnKinds,
    unknown: UnknownColumn,
    rows: &[Row],
    fields: &mut [Option<ResolvedField>],
) -> Result<bool, NoMemory>
    requires places { names.now.places.now ≡ all_places names.now.views.now names.now.scope.now }
    requires rows { rows.now ≡ map (row_at Rule.Ends names.now.views.now names.now.scope.now names.now.places.now) names.now.places.now }
    requires right { AreRight names.now.schema.now names.now.views.now names.now.scope.now columns.now unknown names.now.places.now fields.old }
    ensures { IfOk result (IsRound names.now.schema.now names.now.views.now names.now.scope.now columns.now unknown names.now.places.now rows.now fields.old fields.new) }
{
    let mut has_grown = false;
    for number in 0..rows.len() {
        let place = names.places[number];
        let row = &rows[number];
        let is_new = fill_one(alloc, names, columns, unknown, number, place, row, fields)?;
        has_grown = has_grown || is_new;
    }
    Ok(has_grown)
}

// What is told of the field at each place. A field is resolved in the first round in which all that it refers to is, so each
// is resolved once.
pub(crate) fn resolved_fields(
    alloc: Global,
    names: &Names,
    columns: &ColumnKinds,
    unknown: UnknownColumn,
) -> Result<Items<Option<ResolvedField>>, NoMemory>
    requires { names.now.places.now ≡ all_places names.now.views.now names.now.scope.now }
    ensures { IfOk result (λ fields. fields
        ≡ map (field_told names.now.schema.now names.now.views.now names.now.scope.now columns.now unknown) names.now.places.now) }
{
    let rows = rows_of(alloc, Rule::Ends, names.views, names.scope, names.places)?;
    let mut fields = none_kept(alloc, rows.as_slice())?;
    fill(
        alloc,
        names,
        columns,
        unknown,
        rows.as_slice(),
        fields.as_mut_slice(),
    )?;
    Ok(Items::from_vec(fields))
}

// Keeps all fields of which the references come to an end, round by round.
fn fill(
    alloc: Global,
    names: &Names,
    columns: &ColumnKinds,
    unknown: UnknownColumn,
    rows: &[Row],
    fields: &mut [Option<ResolvedField>],
) -> Result<(), NoMemory>
    requires places { names.now.places.now ≡ all_places names.now.views.now names.now.scope.now }
    requires rows { rows.now ≡ map (row_at Rule.Ends names.now.views.now names.now.scope.now names.now.places.now) names.now.places.now }
    requires empty { fields.old ≡ map (λ row. None) rows.now }
    ensures { IfOk result (λ _. fields.new
        ≡ map (field_told names.now.schema.now names.now.views.now names.now.scope.now columns.now unknown) names.now.places.now) }
{
    for _round in 0..rows.len() {
        let has_grown = fill_round(alloc, names, columns, unknown, rows, fields)?;
        if !has_grown {
            return Ok(());
        }
    }
    Ok(())
}

fn none_kept(alloc: Global, rows: &[Row]) -> Result<Vec<Option<ResolvedField>>, NoMemory>
    ensures { IfOk result (λ fields. fields.items ≡ map (λ row. None) rows.now) }
{
    let mut fields = Vec::new(alloc);
    for _row in rows {
        fields.push(None)?;
    }
    Ok(fields)
}
