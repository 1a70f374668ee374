ghost use Rattle.std.specs.Prelude.{◌≡◌, IfOk, option_map};
ghost use Rattle.std.specs.List.{flat_map, fold};
ghost use Rattle.lk_params.specs.Findings.{sooner};
ghost use Rattle.lk_field_faults.specs.FieldNames.{code_findings, filter_findings, filter_findings_at, is_own, misread, reference_findings};

use lk_fields::{Found, Sort, Writer, found_by, found_in, split_name, view_at};
use lk_formulas::column_named;
use lk_objects::{Code, FilterText, Reference};
use lk_params::{Finding, Findings, Number, Order, add_if};
use lk_scope::{ScopeFields, place_in, reading_of};
use lk_val::NoMemory;
use std::alloc::Global;

// The faults of the names in a code of a field, at a parameter of the field.
pub(crate) fn find_in_code(
    alloc: Global,
    fields: &ScopeFields,
    object: &str,
    at: &str,
    part: u32,
    code: &Code,
    findings: &mut Findings,
) -> Result<(), NoMemory>
    ensures { IfOk result (λ _. findings.new.first ≡ fold sooner findings.old.first
        (code_findings fields.now.schema.now fields.now.views.now fields.now.scope.now object.now at.now part code.now)) }
{
    match code {
        Code::Expr(written) => {
            let references = written.references.as_slice();
            find_in_references(
                alloc,
                fields,
                object,
                at,
                part,
                Sort::Dimension,
                references,
                findings,
            )
        }
        Code::Number(written) => {
            let references = written.references.as_slice();
            find_in_references(
                alloc,
                fields,
                object,
                at,
                part,
                Sort::Measure,
                references,
                findings,
            )
        }
        Code::Absent | Code::Liquid | Code::Syntax(_) => Ok(()),
    }
}

fn find_in_references(
    alloc: Global,
    fields: &ScopeFields,
    object: &str,
    at: &str,
    part: u32,
    sort: Sort,
    references: &[Reference],
    findings: &mut Findings,
) -> Result<(), NoMemory>
    ensures { IfOk result (λ _. findings.new.first ≡ fold sooner findings.old.first
        (flat_map (reference_findings fields.now.schema.now fields.now.views.now fields.now.scope.now object.now at.now part sort) references.now)) }
{
    for reference in references {
        find_in_reference(alloc, fields, object, at, part, sort, reference, findings)?;
    }
    Ok(())
}

fn find_in_reference(
    alloc: Global,
    fields: &ScopeFields,
    object: &str,
    at: &str,
    part: u32,
    sort: Sort,
    reference: &Reference,
    findings: &mut Findings,
) -> Result<(), NoMemory>
    ensures { IfOk result (λ _. findings.new.first ≡ fold sooner findings.old.first
        (reference_findings fields.now.schema.now fields.now.views.now fields.now.scope.now object.now at.now part sort reference.now)) }
{
    match reference {
        Reference::Own(name) => {
            let name = name.as_str();
            let writer = Writer::Field(part);
            let found = found_in(fields.views, fields.scope, writer, None, name, sort)?;
            let (so, order) = (found.is_none(), Order::Field);
            add_if(alloc, so, order, Number::N3, at, object, name, findings)
        }
        Reference::Of(_, _) => Ok(()),
        Reference::Column(name) => {
            let name = name.as_str();
            let part = part as usize;
            let column = column_named(fields.schema, fields.views, fields.scope, part, name);
            let (so, order) = (column.is_none(), Order::Field);
            add_if(alloc, so, order, Number::N5, at, object, name, findings)
        }
    }
}

// The faults of a measure's filters on fields of its own view.
pub(crate) fn find_in_filters(
    alloc: Global,
    fields: &ScopeFields,
    object: &str,
    part: u32,
    filters: &[FilterText],
    findings: &mut Findings,
) -> Result<(), NoMemory>
    ensures { IfOk result (λ _. findings.new.first ≡ fold sooner findings.old.first
        (flat_map (filter_findings fields.now.views.now fields.now.scope.now object.now part) filters.now)) }
{
    for filter in filters {
        find_in_filter(alloc, fields, object, part, filter, findings)?;
    }
    Ok(())
}

fn find_in_filter(
    alloc: Global,
    fields: &ScopeFields,
    object: &str,
    part: u32,
    filter: &FilterText,
    findings: &mut Findings,
) -> Result<(), NoMemory>
    ensures { IfOk result (λ _. findings.new.first ≡ fold sooner findings.old.first
        (filter_findings fields.now.views.now fields.now.scope.now object.now part filter.now)) }
{
    let name = filter.name.as_str();
    let (view, _) = split_name(name);
    if is_own(fields, part, view) {
        let writer = Writer::Field(part);
        let found = found_by(fields.views, fields.scope, writer, name, Sort::Dimension)?;
        find_in_filter_on(alloc, fields, object, filter, found, findings)
    } else {
        Ok(())
    }
}

// A name without a view, or with the declared name of the part's own view.
fn is_own(fields: &ScopeFields, part: u32, view: Option<&str>) -> bool
    ensures { result ≡ is_own fields.now.views.now fields.now.scope.now part (option_map (λ v. v.now) view.entry) }
{
    match view {
        None => true,
        Some(name) => match view_at(fields.views, fields.scope, part as usize) {
            None => false,
            Some(view) => view.name.as_str() == name,
        },
    }
}

fn find_in_filter_on(
    alloc: Global,
    fields: &ScopeFields,
    object: &str,
    filter: &FilterText,
    found: Option<Found>,
    findings: &mut Findings,
) -> Result<(), NoMemory>
    ensures { IfOk result (λ _. findings.new.first ≡ fold sooner findings.old.first
        (filter_findings_at fields.now.views.now fields.now.scope.now object.now filter.now found)) }
{
    match found {
        None => {
            let name = filter.name.as_str();
            let order = Order::Field;
            findings.add(Finding::new(alloc, order, Number::N3, "filters", object, name)?);
            Ok(())
        }
        Some(found) => {
            let reading = reading_of(fields.views, fields.scope, filter, found);
            add_misread(alloc, object, place_in(reading), findings)
        }
    }
}

fn add_misread(
    alloc: Global,
    object: &str,
    place: Option<u32>,
    findings: &mut Findings,
) -> Result<(), NoMemory>
    ensures { IfOk result (λ _. findings.new.first ≡ fold sooner findings.old.first (misread object.now place)) }
{
    if let Some(place) = place {
        let order = Order::Field;
        findings.add(Finding::placed(alloc, order, Number::F1, "filters", place, object)?);
    }
    Ok(())
}
