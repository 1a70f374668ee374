ghost use Rattle.std.specs.Prelude.{◌≡◌, Some, IfOk, codes};
ghost use Rattle.std.specs.List.{fold};
ghost use Rattle.lk_params.specs.Findings.{finding, sooner};
ghost use Rattle.lk_scope.specs.Pieces.{IsTested, first_at};
ghost use Rattle.lk_scope.specs.Scopes.{full_name, part_name};
ghost use Rattle.lk_field_faults.specs.Expressions.{expression_line};
ghost use Rattle.lk_field_faults.specs.FieldFaults.{expression_findings, field_findings, field_line, line_of_field, view_fields_fault};
ghost use Rattle.lk_scope.specs.Told.{IsTold};

use crate::expressions::{expression_line, expression_number};
use crate::field_names::{find_in_code, find_in_filters};
use crate::made_names::test_names;
use lk_fields::{Place, all_places, field_at, fields_at};
use lk_objects::DeclaredField;
use lk_params::{Finding, Findings, Number, Order};
use lk_scope::{ScopeFields, end_test, full_name, known_findings, part_name};
use lk_val::{ModelFault, NoMemory, Text};
use std::alloc::Global;

/// Tests the fields of a view, in the scope of that view alone: that no two make one name (N1), and then each by name, with
/// the first fault of its own parameters, the names in its text (N3, N5), its filters (N3, F1) and its expression (N7, N15,
/// E3). (Looker, LookML reference: dimension, dimension_group, measure; lookd)
pub fn test_view_fields(alloc: Global, fields: &ScopeFields) -> Result<(), ModelFault>
    requires { IsTold fields.now }
    ensures { IsTested result (view_fields_fault fields.now.schema.now fields.now.views.now fields.now.scope.now fields.now.columns.now) }
{
    let declared = fields_at(fields.views, fields.scope, 0);
    test_names(alloc, part_name(fields.scope, 0), declared)?;
    let places = all_places(alloc, fields.views, fields.scope)?;
    test_places(alloc, fields, places.as_slice())
}

fn test_places(alloc: Global, fields: &ScopeFields, places: &[Place]) -> Result<(), ModelFault>
    requires { IsTold fields.now }
    ensures { IsTested result
        (first_at (field_line fields.now.schema.now fields.now.views.now fields.now.scope.now fields.now.columns.now) places.now) }
{
    for place in places {
        test_place(alloc, fields, *place)?;
    }
    Ok(())
}

fn test_place(alloc: Global, fields: &ScopeFields, place: Place) -> Result<(), ModelFault>
    requires { IsTold fields.now }
    ensures { IsTested result
        (field_line fields.now.schema.now fields.now.views.now fields.now.scope.now fields.now.columns.now place) }
{
    match field_at(fields.views, fields.scope, place) {
        None => Ok(()),
        Some(field) => test_field(alloc, fields, place, field),
    }
}

fn test_field(
    alloc: Global,
    fields: &ScopeFields,
    place: Place,
    field: &DeclaredField,
) -> Result<(), ModelFault>
    requires { IsTold fields.now }
    ensures { IsTested result
        (line_of_field fields.now.schema.now fields.now.views.now fields.now.scope.now fields.now.columns.now place (Some field.now)) }
{
    let object = object_name(alloc, fields, place, field)?;
    let mut findings = known_findings(alloc, &field.first)?;
    find_in_field(alloc, fields, object.as_str(), place, field, &mut findings)?;
    end_test(findings)
}

fn find_in_field(
    alloc: Global,
    fields: &ScopeFields,
    object: &str,
    place: Place,
    field: &DeclaredField,
    findings: &mut Findings,
) -> Result<(), NoMemory>
    requires { IsTold fields.now }
    ensures { IfOk result (λ _. findings.new.first ≡ fold sooner findings.old.first
        (field_findings fields.now.schema.now fields.now.views.now fields.now.scope.now fields.now.columns.now object.now place field.now)) }
{
    let number = expression_number(alloc, fields, place, field)?;
    let part = place.part;
    find_in_code(alloc, fields, object, "sql", part, &field.sql, findings)?;
    find_in_code(
        alloc,
        fields,
        object,
        "sql_distinct_key",
        part,
        &field.key,
        findings,
    )?;
    find_in_filters(
        alloc,
        fields,
        object,
        part,
        field.filters.as_slice(),
        findings,
    )?;
    add_number(alloc, object, number, findings)
}

fn add_number(
    alloc: Global,
    object: &str,
    number: Option<Number>,
    findings: &mut Findings,
) -> Result<(), NoMemory>
    ensures { IfOk result (λ _. findings.new.first ≡ fold sooner findings.old.first (expression_findings object.now number)) }
{
    if let Some(number) = number {
        findings.add(expression_finding(alloc, object, number)?);
    }
    Ok(())
}

fn expression_finding(alloc: Global, object: &str, number: Number) -> Result<Finding, NoMemory>
    ensures { IfOk result (λ found. found
        ≡ finding Order.Field number (codes "sql") (expression_line object.now number)) }
{
    Ok(Finding {
        rank: number.rank_in(Order::Field),
        parameter: Text::from_str(alloc, "sql")?,
        line: expression_line(alloc, object, number)?,
    })
}

// The name `part.field` of a field.
pub(crate) fn object_name(
    alloc: Global,
    fields: &ScopeFields,
    place: Place,
    field: &DeclaredField,
) -> Result<Text, NoMemory>
    ensures { IfOk result (λ name. name ≡ full_name (part_name fields.now.scope.now place.part) field.now.name) }
{
    let part = part_name(fields.scope, place.part as usize);
    full_name(alloc, part, field.name.as_str())
}
