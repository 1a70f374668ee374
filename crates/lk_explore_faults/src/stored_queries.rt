ghost use Rattle.std.specs.Prelude.{◌≡◌, IfOk, not, option_map};
ghost use Rattle.std.specs.List.{flat_map, fold};
ghost use Rattle.lk_params.specs.Findings.{sooner};
ghost use Rattle.lk_scope.specs.Told.{IsTold};
ghost use Rattle.lk_explore_faults.specs.StoredQueries.{column_findings, datagroup_findings, entry_findings, filter_findings, filter_findings_at, filter_findings_of, is_datagroup, measure_findings, query_findings, read_findings, relative_findings};

use crate::relative_dates::relative_of;
use lk_fields::Found;
use lk_objects::{DeclaredDatagroup, Entry, FilterText};
use lk_params::{Finding, Findings, Number, Order, add_if};
use lk_scope::{ScopeFields, full_name_of, is_relative, place_in, reading_of};
use lk_val::{NoMemory, Text};
use std::alloc::Global;

// The faults of what a stored query names, one entry after the other, at a parameter of the object: names of no field, texts
// that are no filters, and relative dates. (Looker, LookML reference: aggregate_table, explore_source; lookd)
#[tactic(auto, unfolding(crate::specs::StoredQueries::query_findings))]
pub(crate) fn find_in_query(
    alloc: Global,
    fields: &ScopeFields,
    object: &str,
    at: &str,
    filters: &[FilterText],
    entries: &[Entry],
    findings: &mut Findings,
) -> Result<(), NoMemory>
    requires { IsTold fields.now }
    ensures { IfOk result (λ _. findings.new.first ≡ fold sooner findings.old.first
        (query_findings fields.now.views.now fields.now.scope.now object.now at.now filters.now entries.now)) }
{
    for entry in entries {
        find_in_entry(alloc, fields, object, at, filters, entry, findings)?;
    }
    Ok(())
}

fn find_in_entry(
    alloc: Global,
    fields: &ScopeFields,
    object: &str,
    at: &str,
    filters: &[FilterText],
    entry: &Entry,
    findings: &mut Findings,
) -> Result<(), NoMemory>
    requires { IsTold fields.now }
    ensures { IfOk result (λ _. findings.new.first ≡ fold sooner findings.old.first
        (entry_findings fields.now.views.now fields.now.scope.now object.now at.now filters.now entry.now)) }
{
    match entry {
        Entry::Dimension(name) => {
            let name = name.as_str();
            let so = fields.dimension_named(name)?.is_none();
            add_if(
                alloc,
                so,
                Order::Object,
                Number::N3,
                at,
                object,
                name,
                findings,
            )
        }
        Entry::Measure(name) => {
            let name = name.as_str();
            let found = fields.measure_named(name)?;
            find_in_measure(alloc, fields, object, at, name, found, findings)
        }
        Entry::Column(name) => {
            let name = name.as_str();
            let found = fields.dimension_named(name)?;
            find_in_column(alloc, fields, object, at, name, found, findings)
        }
        Entry::Filter(number) => {
            let filter = filters.get(*number as usize);
            find_in_filter_of(alloc, fields, object, at, filter, findings)
        }
    }
}

fn find_in_filter_of(
    alloc: Global,
    fields: &ScopeFields,
    object: &str,
    at: &str,
    filter: Option<&FilterText>,
    findings: &mut Findings,
) -> Result<(), NoMemory>
    requires { IsTold fields.now }
    ensures { IfOk result (λ _. findings.new.first ≡ fold sooner findings.old.first
        (filter_findings_of fields.now.views.now fields.now.scope.now object.now at.now (option_map (λ f. f.now) filter.entry))) }
{
    match filter {
        None => Ok(()),
        Some(filter) => find_in_filter(alloc, fields, object, at, true, filter, findings),
    }
}

// A name, and the dimension that it means; without one it has to mean a measure.
fn find_in_column(
    alloc: Global,
    fields: &ScopeFields,
    object: &str,
    at: &str,
    name: &str,
    found: Option<Found>,
    findings: &mut Findings,
) -> Result<(), NoMemory>
    requires { IsTold fields.now }
    ensures { IfOk result (λ _. findings.new.first ≡ fold sooner findings.old.first
        (column_findings fields.now.views.now fields.now.scope.now object.now at.now name.now found)) }
{
    match found {
        None => {
            let found = fields.measure_named(name)?;
            find_in_measure(alloc, fields, object, at, name, found, findings)
        }
        Some(_) => Ok(()),
    }
}

// A name, and the measure that it means.
fn find_in_measure(
    alloc: Global,
    fields: &ScopeFields,
    object: &str,
    at: &str,
    name: &str,
    found: Option<Found>,
    findings: &mut Findings,
) -> Result<(), NoMemory>
    ensures { IfOk result (λ _. findings.new.first ≡ fold sooner findings.old.first
        (measure_findings fields.now.views.now fields.now.scope.now object.now at.now name.now found)) }
{
    match found {
        None => {
            let order = Order::Object;
            findings.add(Finding::new(alloc, order, Number::N3, at, object, name)?);
            Ok(())
        }
        Some(found) => {
            let field = relative_of(alloc, fields, found.place)?;
            add_relative(alloc, object, at, &field, findings)
        }
    }
}

// A relative date in a filter on a field, if there is one.
pub(crate) fn add_relative(
    alloc: Global,
    object: &str,
    at: &str,
    field: &Option<Text>,
    findings: &mut Findings,
) -> Result<(), NoMemory>
    ensures { IfOk result (λ _. findings.new.first ≡ fold sooner findings.old.first
        (relative_findings object.now at.now field.now)) }
{
    if let Some(field) = field {
        let (order, field) = (Order::Object, field.as_str());
        findings.add(Finding::new(alloc, order, Number::N13, at, object, field)?);
    }
    Ok(())
}

// The faults of a filter outside fields, at a parameter of the object.
pub(crate) fn find_in_filter(
    alloc: Global,
    fields: &ScopeFields,
    object: &str,
    at: &str,
    is_stored: bool,
    filter: &FilterText,
    findings: &mut Findings,
) -> Result<(), NoMemory>
    requires { IsTold fields.now }
    ensures { IfOk result (λ _. findings.new.first ≡ fold sooner findings.old.first
        (filter_findings fields.now.views.now fields.now.scope.now object.now at.now is_stored filter.now)) }
{
    let found = fields.dimension_named(filter.name.as_str())?;
    find_in_filter_on(
        alloc, fields, object, at, is_stored, filter, found, findings,
    )
}

fn find_in_filter_on(
    alloc: Global,
    fields: &ScopeFields,
    object: &str,
    at: &str,
    is_stored: bool,
    filter: &FilterText,
    found: Option<Found>,
    findings: &mut Findings,
) -> Result<(), NoMemory>
    ensures { IfOk result (λ _. findings.new.first ≡ fold sooner findings.old.first
        (filter_findings_at fields.now.views.now fields.now.scope.now object.now at.now is_stored filter.now found)) }
{
    let name = filter.name.as_str();
    match found {
        None => {
            let order = Order::Object;
            findings.add(Finding::new(alloc, order, Number::N3, at, object, name)?);
            Ok(())
        }
        Some(found) => {
            let reading = reading_of(fields.views, fields.scope, filter, found);
            let is_wrong = is_stored && is_relative(reading);
            let place = place_in(reading);
            let field = full_name_of(alloc, fields.scope, found, name)?;
            add_read(alloc, object, at, is_wrong, field.as_str(), place, findings)
        }
    }
}

// Of a filter on a field: the fault in its text, or in a stored query a relative date.
fn add_read(
    alloc: Global,
    object: &str,
    at: &str,
    is_wrong: bool,
    field: &str,
    place: Option<u32>,
    findings: &mut Findings,
) -> Result<(), NoMemory>
    ensures { IfOk result (λ _. findings.new.first ≡ fold sooner findings.old.first
        (read_findings object.now at.now is_wrong field.now place)) }
{
    let order = Order::Object;
    match place {
        Some(place) => {
            findings.add(Finding::placed(alloc, order, Number::F1, at, place, field)?);
            Ok(())
        }
        None => add_if(
            alloc,
            is_wrong,
            order,
            Number::N13,
            at,
            object,
            field,
            findings,
        ),
    }
}

// A datagroup that nobody declares, at a parameter of the object.
pub(crate) fn find_datagroup(
    alloc: Global,
    datagroups: &[DeclaredDatagroup],
    object: &str,
    at: &str,
    name: &Option<Text>,
    findings: &mut Findings,
) -> Result<(), NoMemory>
    ensures { IfOk result (λ _. findings.new.first ≡ fold sooner findings.old.first
        (datagroup_findings datagroups.now object.now at.now name.now)) }
{
    match name {
        None => Ok(()),
        Some(name) => {
            let (order, name) = (Order::Object, name.as_str());
            let so = !is_datagroup(datagroups, name);
            add_if(alloc, so, order, Number::N6, at, object, name, findings)
        }
    }
}

fn is_datagroup(datagroups: &[DeclaredDatagroup], name: &str) -> bool
    ensures { result ≡ is_datagroup datagroups.now name.now }
{
    datagroups.iter().any(|g| g.name.as_str() == name)
}
