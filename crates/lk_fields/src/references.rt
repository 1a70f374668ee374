ghost use Rattle.std.specs.Prelude.{◌≡◌, ◌++◌, IfOk, map, option_map};
ghost use Rattle.std.specs.List.{flat_map};
ghost use Rattle.lk_fields.specs.Existing.{field_at, fields_at, filtered, meant, meant_in, named_by, referred};

use crate::names::{found_by, found_in, view_at};
use crate::scope::{Found, Place, Scope, Sort, Writer};
use lk_objects::{Code, DeclaredField, DeclaredView, FilterText, Reference};
use lk_val::{Items, NoMemory};
use std::alloc::Global;

/// The declared field at a place; none where there is no such place.
pub fn field_at<'a>(
    views: &'a [DeclaredView],
    scope: &Scope,
    place: Place,
) -> Option<&'a DeclaredField>
    ensures { option_map (λ field. field.now) result ≡ field_at views.now scope.now place }
{
    fields_at(views, scope, place.part as usize).get(place.field as usize)
}

/// The declared fields of a part.
pub fn fields_at<'a>(views: &'a [DeclaredView], scope: &Scope, part: usize) -> &'a [DeclaredField]
    ensures { result.now ≡ fields_at views.now scope.now part }
{
    match view_at(views, scope, part) {
        None => &[],
        Some(view) => view.fields.as_slice(),
    }
}

/// What the `sql` and the `sql_distinct_key` of a field of a part refer to, in order: each reference that is no column, with
/// the declared field that it means. (Looker, LookML reference: substitution operators)
pub fn referred(
    alloc: Global,
    views: &[DeclaredView],
    scope: &Scope,
    part: u32,
    field: &DeclaredField,
) -> Result<Items<Option<Found>>, NoMemory>
    ensures { IfOk result (λ found. found ≡ referred views.now scope.now part field.now) }
{
    let mut found = Items::new(alloc);
    add_meant_in(views, scope, part, &field.sql, &mut found)?;
    add_meant_in(views, scope, part, &field.key, &mut found)?;
    Ok(found)
}

/// All that a field's text names: what it refers to, and then the fields that its filters are on.
pub fn named_by(
    alloc: Global,
    views: &[DeclaredView],
    scope: &Scope,
    part: u32,
    field: &DeclaredField,
) -> Result<Items<Option<Found>>, NoMemory>
    ensures { IfOk result (λ found. found ≡ named_by views.now scope.now part field.now) }
{
    let mut found = referred(alloc, views, scope, part, field)?;
    add_filtered(views, scope, part, field.filters.as_slice(), &mut found)?;
    Ok(found)
}

fn add_meant_in(
    views: &[DeclaredView],
    scope: &Scope,
    part: u32,
    code: &Code,
    found: &mut Items<Option<Found>>,
) -> Result<(), NoMemory>
    ensures { IfOk result (λ _. found.new ≡ found.old ++ meant_in views.now scope.now part code.now) }
{
    match code {
        Code::Expr(written) => {
            let references = written.references.as_slice();
            add_all(views, scope, part, Sort::Dimension, references, found)
        }
        Code::Number(written) => {
            let references = written.references.as_slice();
            add_all(views, scope, part, Sort::Measure, references, found)
        }
        Code::Absent | Code::Liquid | Code::Syntax(_) => Ok(()),
    }
}

fn add_all(
    views: &[DeclaredView],
    scope: &Scope,
    part: u32,
    sort: Sort,
    references: &[Reference],
    found: &mut Items<Option<Found>>,
) -> Result<(), NoMemory>
    ensures { IfOk result (λ _. found.new
        ≡ found.old ++ flat_map (meant views.now scope.now part sort) references.now) }
{
    for reference in references {
        add_meant(views, scope, part, sort, reference, found)?;
    }
    Ok(())
}

fn add_meant(
    views: &[DeclaredView],
    scope: &Scope,
    part: u32,
    sort: Sort,
    reference: &Reference,
    found: &mut Items<Option<Found>>,
) -> Result<(), NoMemory>
    ensures { IfOk result (λ _. found.new ≡ found.old ++ meant views.now scope.now part sort reference.now) }
{
    let writer = Writer::Field(part);
    match reference {
        Reference::Own(name) => {
            found.push(found_in(views, scope, writer, None, name.as_str(), sort)?)?;
        }
        Reference::Of(view, name) => {
            let view = Some(view.as_str());
            found.push(found_in(views, scope, writer, view, name.as_str(), sort)?)?;
        }
        Reference::Column(_) => {}
    }
    Ok(())
}

fn add_filtered(
    views: &[DeclaredView],
    scope: &Scope,
    part: u32,
    filters: &[FilterText],
    found: &mut Items<Option<Found>>,
) -> Result<(), NoMemory>
    ensures { IfOk result (λ _. found.new
        ≡ found.old ++ map (filtered views.now scope.now part) filters.now) }
{
    for filter in filters {
        let name = filter.name.as_str();
        found.push(found_by(views, scope, Writer::Field(part), name, Sort::Dimension)?)?;
    }
    Ok(())
}
