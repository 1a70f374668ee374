ghost use Rattle.std.specs.Prelude.{◌≡◌, Some};
ghost use Rattle.std.specs.Option.{option_map};
ghost use Rattle.lk_params.specs.declared.number.Number.TheVariants.{F1};
ghost use Rattle.lk_params.specs.Findings.{placed_line};
ghost use Rattle.lk_scope.specs.Pieces.{IsTested, first_at};
ghost use Rattle.lk_scope.specs.Scopes.{full_name, part_name};
ghost use Rattle.lk_field_faults.specs.Expressions.{expression_line};
ghost use Rattle.lk_field_faults.specs.ExploreFields.{explore_field_line, explore_fields_fault, line_at, line_of_existing, misread_line, misread_with};
ghost use Rattle.lk_scope.specs.Told.{IsTold};

use crate::expressions::{expression_line, expression_number};
use crate::field_faults::object_name;
use lk_fields::{Found, Place, Sort, Writer, field_at, found_by};
use lk_objects::{DeclaredField, FilterText};
use lk_params::{Finding, Number, Order};
use lk_scope::{ScopeFields, place_in, places_by_name, reading_of};
use lk_val::{ModelFault, NoMemory};
use std::alloc::Global;

/// Tests the fields of an explore by name, of which text may name other views: of each its filters (F1), and then its
/// expression (N7, N15, E3). (Looker, LookML reference: explore, substitution operators; lookd)
pub fn test_explore_fields(alloc: Global, fields: &ScopeFields) -> Result<(), ModelFault>
    requires { IsTold fields.now }
    ensures { IsTested result (explore_fields_fault fields.now.schema.now fields.now.views.now fields.now.scope.now fields.now.columns.now) }
{
    let places = places_by_name(alloc, fields.views, fields.scope)?;
    test_places(alloc, fields, places.as_slice())
}

fn test_places(alloc: Global, fields: &ScopeFields, places: &[Place]) -> Result<(), ModelFault>
    requires { IsTold fields.now }
    ensures { IsTested result
        (first_at (explore_field_line fields.now.schema.now fields.now.views.now fields.now.scope.now fields.now.columns.now) places.now) }
{
    for place in places {
        test_place(alloc, fields, *place)?;
    }
    Ok(())
}

fn test_place(alloc: Global, fields: &ScopeFields, place: Place) -> Result<(), ModelFault>
    requires { IsTold fields.now }
    ensures { IsTested result
        (explore_field_line fields.now.schema.now fields.now.views.now fields.now.scope.now fields.now.columns.now place) }
{
    match field_at(fields.views, fields.scope, place) {
        None => Ok(()),
        Some(field) => test_field(alloc, fields, place, field),
    }
}

fn test_field(
    alloc: Global,
    fields: &ScopeFields,
    place: Place,
    field: &DeclaredField,
) -> Result<(), ModelFault>
    requires { IsTold fields.now }
    ensures { IsTested result
        (line_at fields.now.schema.now fields.now.views.now fields.now.scope.now fields.now.columns.now place (Some field.now)) }
{
    if fields.exists(place) {
        test_named(alloc, fields, place, field)
    } else {
        Ok(())
    }
}

// A field of the explore, under the name `part.field`.
fn test_named(
    alloc: Global,
    fields: &ScopeFields,
    place: Place,
    field: &DeclaredField,
) -> Result<(), ModelFault>
    requires { IsTold fields.now }
    ensures { IsTested result
        (line_of_existing fields.now.schema.now fields.now.views.now fields.now.scope.now fields.now.columns.now (full_name (part_name fields.now.scope.now place.part) field.now.name) place field.now) }
{
    let object = object_name(alloc, fields, place, field)?;
    test_existing(alloc, fields, object.as_str(), place, field)
}

fn test_existing(
    alloc: Global,
    fields: &ScopeFields,
    object: &str,
    place: Place,
    field: &DeclaredField,
) -> Result<(), ModelFault>
    requires { IsTold fields.now }
    ensures { IsTested result
        (line_of_existing fields.now.schema.now fields.now.views.now fields.now.scope.now fields.now.columns.now object.now place field.now) }
{
    test_filters(alloc, fields, object, place.part, field.filters.as_slice())?;
    test_number(
        alloc,
        object,
        expression_number(alloc, fields, place, field)?,
    )
}

fn test_number(alloc: Global, object: &str, number: Option<Number>) -> Result<(), ModelFault>
    ensures { IsTested result (option_map (expression_line object.now) number) }
{
    match number {
        None => Ok(()),
        Some(number) => Err(ModelFault::Fault(expression_line(alloc, object, number)?)),
    }
}

fn test_filters(
    alloc: Global,
    fields: &ScopeFields,
    object: &str,
    part: u32,
    filters: &[FilterText],
) -> Result<(), ModelFault>
    ensures { IsTested result
        (first_at (misread_line fields.now.views.now fields.now.scope.now object.now part) filters.now) }
{
    for filter in filters {
        test_filter(alloc, fields, object, part, filter)?;
    }
    Ok(())
}

fn test_filter(
    alloc: Global,
    fields: &ScopeFields,
    object: &str,
    part: u32,
    filter: &FilterText,
) -> Result<(), ModelFault>
    ensures { IsTested result (misread_line fields.now.views.now fields.now.scope.now object.now part filter.now) }
{
    let name = filter.name.as_str();
    let writer = Writer::Field(part);
    let found = found_by(fields.views, fields.scope, writer, name, Sort::Dimension)?;
    test_filter_on(alloc, fields, object, filter, found)
}

fn test_filter_on(
    alloc: Global,
    fields: &ScopeFields,
    object: &str,
    filter: &FilterText,
    found: Option<Found>,
) -> Result<(), ModelFault>
    ensures { IsTested result (misread_with fields.now.views.now fields.now.scope.now object.now filter.now found) }
{
    match found {
        None => Ok(()),
        Some(found) => {
            let reading = reading_of(fields.views, fields.scope, filter, found);
            test_place_in(alloc, object, place_in(reading))
        }
    }
}

fn test_place_in(alloc: Global, object: &str, place: Option<u32>) -> Result<(), ModelFault>
    ensures { IsTested result (option_map (λ place. placed_line F1 place object.now) place) }
{
    match place {
        None => Ok(()),
        Some(place) => {
            let order = Order::Object;
            let found = Finding::placed(alloc, order, Number::F1, "", place, object)?;
            Err(ModelFault::Fault(found.line))
        }
    }
}
