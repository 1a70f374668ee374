ghost use Rattle.std.specs.Prelude.{◌≡◌, IfOk, option_map};
ghost use Rattle.std.specs.List.{flat_map, fold, list_any};
ghost use Rattle.lk_params.specs.Findings.{sooner};
ghost use Rattle.lk_scope.specs.Pieces.{IsTested};
ghost use Rattle.lk_scope.specs.Scopes.{scope_of};
ghost use Rattle.lk_scope.specs.Told.{IsTold};
ghost use Rattle.lk_explore_faults.specs.StoredQueries.{query_findings};
ghost use Rattle.lk_explore_faults.specs.ViewFaults.{always_finding, always_findings, derived_findings, explore_findings, has_two_keys, is_key, key_findings, named_findings, source_findings, view_fault, view_findings};

use crate::relative_dates::relative_with;
use crate::stored_queries::{add_relative, find_datagroup, find_in_query};
use lk_fields::Scope;
use lk_formulas::{ColumnKinds, FieldTable, UnknownColumn};
use lk_objects::{
    Declared, DeclaredExplore, DeclaredField, DeclaredView, DerivedTable, ExploreFilter,
    FilterText, Rows,
};
use lk_params::{Finding, Findings, Number, Order, add_if};
use lk_scope::{ScopeFields, end_test, explore_named, known_findings, scope_of};
use lk_types::Schema;
use lk_val::{Items, ModelFault, NoMemory, Text};
use std::alloc::Global;

/// Tests a view, those of its fields aside: the first fault of its own parameters, two primary keys (N9), and in its derived
/// table an unknown source (N2), names of no field of the source (N3), an unknown datagroup (N6), relative dates (N13) and
/// texts that are no filters (F1). (Looker, LookML reference: view, derived_table; lookd)
pub fn test_view(
    alloc: Global,
    schema: &Schema,
    declared: &Declared,
    view: &DeclaredView,
) -> Result<(), ModelFault>
    ensures { IsTested result (view_fault declared.now view.now) }
{
    let mut findings = known_findings(alloc, &view.first)?;
    find_in_view(alloc, schema, declared, view, &mut findings)?;
    end_test(findings)
}

fn find_in_view(
    alloc: Global,
    schema: &Schema,
    declared: &Declared,
    view: &DeclaredView,
    findings: &mut Findings,
) -> Result<(), NoMemory>
    ensures { IfOk result (λ _. findings.new.first ≡ fold sooner findings.old.first
        (view_findings declared.now view.now)) }
{
    find_keys(alloc, view, findings)?;
    find_in_rows(
        alloc,
        schema,
        declared,
        view.name.as_str(),
        "derived_table",
        &view.rows,
        findings,
    )
}

// Two fields that are marked as primary keys.
fn find_keys(alloc: Global, view: &DeclaredView, findings: &mut Findings) -> Result<(), NoMemory>
    ensures { IfOk result (λ _. findings.new.first ≡ fold sooner findings.old.first (key_findings view.now)) }
{
    let so = has_two_keys(view.fields.as_slice());
    let object = view.name.as_str();
    add_if(
        alloc,
        so,
        Order::Object,
        Number::N9,
        "primary_key",
        object,
        "",
        findings,
    )
}

fn has_two_keys(fields: &[DeclaredField]) -> bool
    ensures { result ≡ has_two_keys fields.now }
{
    for place in 0..fields.len() {
        if fields[place].is_key && has_key(&fields[place + 1..]) {
            return true;
        }
    }
    false
}

fn has_key(fields: &[DeclaredField]) -> bool
    ensures { result ≡ list_any is_key fields.now }
{
    for field in fields {
        if field.is_key {
            return true;
        }
    }
    false
}

fn find_in_rows(
    alloc: Global,
    schema: &Schema,
    declared: &Declared,
    object: &str,
    at: &str,
    rows: &Rows,
    findings: &mut Findings,
) -> Result<(), NoMemory>
    ensures { IfOk result (λ _. findings.new.first ≡ fold sooner findings.old.first
        (derived_findings declared.now object.now at.now rows.now)) }
{
    match rows {
        Rows::Stored(_) => Ok(()),
        Rows::Derived(derived) => {
            let datagroups = declared.datagroups.as_slice();
            let name = &derived.datagroup;
            find_datagroup(alloc, datagroups, object, at, name, findings)?;
            find_in_named(
                alloc,
                schema,
                declared,
                object,
                at,
                derived,
                &derived.explore,
                findings,
            )
        }
    }
}

// A derived table that is made from the explore of this name.
fn find_in_named(
    alloc: Global,
    schema: &Schema,
    declared: &Declared,
    object: &str,
    at: &str,
    derived: &DerivedTable,
    name: &Option<Text>,
    findings: &mut Findings,
) -> Result<(), NoMemory>
    ensures { IfOk result (λ _. findings.new.first ≡ fold sooner findings.old.first
        (named_findings declared.now object.now at.now derived.now name.now)) }
{
    match name {
        None => Ok(()),
        Some(name) => {
            let name = name.as_str();
            let explore = explore_named(declared.explores.as_slice(), name);
            let views = declared.views.as_slice();
            find_in_explore(
                alloc, schema, views, object, at, derived, name, explore, findings,
            )
        }
    }
}

fn find_in_explore(
    alloc: Global,
    schema: &Schema,
    views: &[DeclaredView],
    object: &str,
    at: &str,
    derived: &DerivedTable,
    name: &str,
    explore: Option<&DeclaredExplore>,
    findings: &mut Findings,
) -> Result<(), NoMemory>
    ensures { IfOk result (λ _. findings.new.first ≡ fold sooner findings.old.first
        (explore_findings views.now object.now at.now derived.now name.now (option_map (λ x. x.now) explore.entry))) }
{
    match explore {
        None => {
            let order = Order::Object;
            findings.add(Finding::new(alloc, order, Number::N2, at, object, name)?);
            Ok(())
        }
        Some(explore) => {
            find_in_scope_of(alloc, schema, views, object, at, derived, explore, findings)
        }
    }
}

fn find_in_scope_of(
    alloc: Global,
    schema: &Schema,
    views: &[DeclaredView],
    object: &str,
    at: &str,
    derived: &DerivedTable,
    explore: &DeclaredExplore,
    findings: &mut Findings,
) -> Result<(), NoMemory>
    ensures { IfOk result (λ _. findings.new.first ≡ fold sooner findings.old.first
        (source_findings views.now (scope_of views.now explore.now) object.now at.now derived.now explore.now.filters)) }
{
    let scope = scope_of(alloc, views, explore)?;
    let filters = explore.filters.as_slice();
    find_in_scope(
        alloc, schema, views, &scope, object, at, derived, filters, findings,
    )
}

// The fields of the source are looked up for the names alone, so without the kinds of columns.
fn find_in_scope(
    alloc: Global,
    schema: &Schema,
    views: &[DeclaredView],
    scope: &Scope,
    object: &str,
    at: &str,
    derived: &DerivedTable,
    filters: &[ExploreFilter],
    findings: &mut Findings,
) -> Result<(), NoMemory>
    ensures { IfOk result (λ _. findings.new.first ≡ fold sooner findings.old.first
        (source_findings views.now scope.now object.now at.now derived.now filters.now)) }
{
    let columns = ColumnKinds {
        parts: Items::new(alloc),
    };
    let unknown = UnknownColumn::Null;
    let table = FieldTable::of(alloc, schema, views, scope, &columns, unknown)?;
    let source = ScopeFields {
        schema,
        views,
        scope,
        columns: &columns,
        table: &table,
    };
    find_in_source(alloc, &source, object, at, derived, filters, findings)
}

// What the query of a derived table names, and its source's `always_filter`, which it has too.
fn find_in_source(
    alloc: Global,
    source: &ScopeFields,
    object: &str,
    at: &str,
    derived: &DerivedTable,
    filters: &[ExploreFilter],
    findings: &mut Findings,
) -> Result<(), NoMemory>
    requires { IsTold source.now }
    ensures { IfOk result (λ _. findings.new.first ≡ fold sooner findings.old.first
        (source_findings source.now.views.now source.now.scope.now object.now at.now derived.now filters.now)) }
{
    find_in_derived_query(alloc, source, object, at, derived, findings)?;
    find_in_always(alloc, source, object, at, filters, findings)
}

fn find_in_derived_query(
    alloc: Global,
    source: &ScopeFields,
    object: &str,
    at: &str,
    derived: &DerivedTable,
    findings: &mut Findings,
) -> Result<(), NoMemory>
    requires { IsTold source.now }
    ensures { IfOk result (λ _. findings.new.first ≡ fold sooner findings.old.first
        (query_findings source.now.views.now source.now.scope.now object.now at.now derived.now.filters derived.now.entries)) }
{
    find_in_query(
        alloc,
        source,
        object,
        at,
        derived.filters.as_slice(),
        derived.entries.as_slice(),
        findings,
    )
}

fn find_in_always(
    alloc: Global,
    source: &ScopeFields,
    object: &str,
    at: &str,
    filters: &[ExploreFilter],
    findings: &mut Findings,
) -> Result<(), NoMemory>
    requires { IsTold source.now }
    ensures { IfOk result (λ _. findings.new.first ≡ fold sooner findings.old.first
        (flat_map (always_findings source.now.views.now source.now.scope.now object.now at.now) filters.now)) }
{
    for filter in filters {
        find_in_one_always(alloc, source, object, at, filter, findings)?;
    }
    Ok(())
}

fn find_in_one_always(
    alloc: Global,
    source: &ScopeFields,
    object: &str,
    at: &str,
    filter: &ExploreFilter,
    findings: &mut Findings,
) -> Result<(), NoMemory>
    requires { IsTold source.now }
    ensures { IfOk result (λ _. findings.new.first ≡ fold sooner findings.old.first
        (always_findings source.now.views.now source.now.scope.now object.now at.now filter.now)) }
{
    match filter {
        ExploreFilter::Always(always) => {
            find_relative(
                alloc,
                source,
                object,
                at,
                always.filters.as_slice(),
                findings,
            )
        }
        ExploreFilter::Access(_) | ExploreFilter::Where(_, _) => Ok(()),
    }
}

fn find_relative(
    alloc: Global,
    source: &ScopeFields,
    object: &str,
    at: &str,
    filters: &[FilterText],
    findings: &mut Findings,
) -> Result<(), NoMemory>
    requires { IsTold source.now }
    ensures { IfOk result (λ _. findings.new.first ≡ fold sooner findings.old.first
        (flat_map (always_finding source.now.views.now source.now.scope.now object.now at.now) filters.now)) }
{
    for filter in filters {
        find_relative_in(alloc, source, object, at, filter, findings)?;
    }
    Ok(())
}

// A relative date in one filter of the source's `always_filter`.
fn find_relative_in(
    alloc: Global,
    source: &ScopeFields,
    object: &str,
    at: &str,
    filter: &FilterText,
    findings: &mut Findings,
) -> Result<(), NoMemory>
    requires { IsTold source.now }
    ensures { IfOk result (λ _. findings.new.first ≡ fold sooner findings.old.first
        (always_finding source.now.views.now source.now.scope.now object.now at.now filter.now)) }
{
    let found = source.dimension_named(filter.name.as_str())?;
    let field = relative_with(alloc, source, filter, found)?;
    add_relative(alloc, object, at, &field, findings)
}
