ghost use Rattle.std.specs.Prelude.{◌≡◌, ◌++◌, IfOk, Some, codes, false};
ghost use Rattle.std.specs.List.{flat_map, fold};
ghost use Rattle.lk_params.specs.Findings.{sooner};
ghost use Rattle.lk_scope.specs.Pieces.{IsTested, first_at, line_with};
ghost use Rattle.lk_scope.specs.Told.{IsTold};
ghost use Rattle.lk_explore_faults.specs.FilterFaults.{access_findings, always_findings, filter_line, filters_findings, findings_at, rollup_findings, rollup_line};
ghost use Rattle.lk_explore_faults.specs.StoredQueries.{filter_findings, query_findings};

use crate::explore_texts::find_in_text;
use crate::stored_queries::{find_datagroup, find_in_filter, find_in_query};
use lk_objects::{
    AccessFilter, AggregateTable, AlwaysFilter, DeclaredDatagroup, ExploreFilter, FilterText,
};
use lk_params::{Findings, Number, Order, add_if};
use lk_scope::{ScopeFields, end_test, known_findings};
use lk_val::{ModelFault, NoMemory, Text};
use std::alloc::Global;

// Tests the filters of an explore, one after the other, without the kinds and the nodes of their expressions.
pub(crate) fn test_filters(
    alloc: Global,
    fields: &ScopeFields,
    explore: &str,
    filters: &[ExploreFilter],
) -> Result<(), ModelFault>
    requires { IsTold fields.now }
    ensures { IsTested result
        (first_at (filter_line fields.now.schema.now fields.now.views.now fields.now.scope.now explore.now) filters.now) }
{
    for filter in filters {
        test_filter(alloc, fields, explore, filter)?;
    }
    Ok(())
}

fn test_filter(
    alloc: Global,
    fields: &ScopeFields,
    explore: &str,
    filter: &ExploreFilter,
) -> Result<(), ModelFault>
    requires { IsTold fields.now }
    ensures { IsTested result
        (filter_line fields.now.schema.now fields.now.views.now fields.now.scope.now explore.now filter.now) }
{
    match filter {
        ExploreFilter::Always(always) => test_always(alloc, fields, explore, always),
        ExploreFilter::Access(access) => test_access(alloc, fields, explore, access),
        ExploreFilter::Where(code, first) => {
            let mut findings = known_findings(alloc, first)?;
            let at = "sql_always_where";
            find_in_text(alloc, fields, explore, at, code, &mut findings)?;
            end_test(findings)
        }
    }
}

fn test_always(
    alloc: Global,
    fields: &ScopeFields,
    explore: &str,
    always: &AlwaysFilter,
) -> Result<(), ModelFault>
    requires { IsTold fields.now }
    ensures { IsTested result
        (line_with always.now.first (always_findings fields.now.views.now fields.now.scope.now explore.now always.now.filters)) }
{
    let mut findings = known_findings(alloc, &always.first)?;
    let (at, filters) = ("always_filter", always.filters.as_slice());
    find_in_filters(alloc, fields, explore, at, filters, &mut findings)?;
    end_test(findings)
}

fn find_in_filters(
    alloc: Global,
    fields: &ScopeFields,
    explore: &str,
    at: &str,
    filters: &[FilterText],
    findings: &mut Findings,
) -> Result<(), NoMemory>
    requires { IsTold fields.now }
    ensures { IfOk result (λ _. findings.new.first ≡ fold sooner findings.old.first
        (filters_findings fields.now.views.now fields.now.scope.now explore.now at.now filters.now)) }
{
    for filter in filters {
        find_in_filter(alloc, fields, explore, at, false, filter, findings)?;
    }
    Ok(())
}

fn test_access(
    alloc: Global,
    fields: &ScopeFields,
    explore: &str,
    access: &AccessFilter,
) -> Result<(), ModelFault>
    requires { IsTold fields.now }
    ensures { IsTested result
        (line_with access.now.first (access_findings fields.now.views.now fields.now.scope.now explore.now access.now.field)) }
{
    let mut findings = known_findings(alloc, &access.first)?;
    find_in_access(alloc, fields, explore, &access.field, &mut findings)?;
    end_test(findings)
}

fn find_in_access(
    alloc: Global,
    fields: &ScopeFields,
    explore: &str,
    field: &Option<Text>,
    findings: &mut Findings,
) -> Result<(), NoMemory>
    requires { IsTold fields.now }
    ensures { IfOk result (λ _. findings.new.first ≡ fold sooner findings.old.first
        (access_findings fields.now.views.now fields.now.scope.now explore.now field.now)) }
{
    match field {
        None => Ok(()),
        Some(name) => {
            let name = name.as_str();
            let so = fields.dimension_named(name)?.is_none();
            let order = Order::Object;
            add_if(
                alloc,
                so,
                order,
                Number::N3,
                "access_filter",
                explore,
                name,
                findings,
            )
        }
    }
}

// Tests the aggregate tables of an explore, one after the other.
pub(crate) fn test_rollups(
    alloc: Global,
    fields: &ScopeFields,
    datagroups: &[DeclaredDatagroup],
    rollups: &[AggregateTable],
) -> Result<(), ModelFault>
    requires { IsTold fields.now }
    ensures { IsTested result
        (first_at (rollup_line fields.now.views.now fields.now.scope.now datagroups.now) rollups.now) }
{
    for rollup in rollups {
        test_rollup(alloc, fields, datagroups, rollup)?;
    }
    Ok(())
}

#[tactic(auto, unfolding(crate::specs::FilterFaults::rollup_line))]
fn test_rollup(
    alloc: Global,
    fields: &ScopeFields,
    datagroups: &[DeclaredDatagroup],
    rollup: &AggregateTable,
) -> Result<(), ModelFault>
    requires { IsTold fields.now }
    ensures { IsTested result
        (rollup_line fields.now.views.now fields.now.scope.now datagroups.now rollup.now) }
{
    let mut findings = known_findings(alloc, &rollup.first)?;
    find_in_rollup(alloc, fields, datagroups, rollup, &mut findings)?;
    end_test(findings)
}

fn find_in_rollup(
    alloc: Global,
    fields: &ScopeFields,
    datagroups: &[DeclaredDatagroup],
    rollup: &AggregateTable,
    findings: &mut Findings,
) -> Result<(), NoMemory>
    requires { IsTold fields.now }
    ensures { IfOk result (λ _. findings.new.first ≡ fold sooner findings.old.first
        (rollup_findings fields.now.views.now fields.now.scope.now datagroups.now rollup.now)) }
{
    let (query, built) = ("query", "materialization");
    find_at(alloc, fields, query, built, datagroups, rollup, findings)
}

// The same, given the names of the parameters.
fn find_at(
    alloc: Global,
    fields: &ScopeFields,
    query: &str,
    built: &str,
    datagroups: &[DeclaredDatagroup],
    rollup: &AggregateTable,
    findings: &mut Findings,
) -> Result<(), NoMemory>
    requires { IsTold fields.now }
    ensures { IfOk result (λ _. findings.new.first ≡ fold sooner findings.old.first
        (findings_at fields.now.views.now fields.now.scope.now query.now built.now datagroups.now rollup.now)) }
{
    let object = rollup.name.as_str();
    find_in_rollup_query(alloc, fields, query, rollup, findings)?;
    find_datagroup(
        alloc,
        datagroups,
        object,
        built,
        &rollup.datagroup,
        findings,
    )
}

// What the query of an aggregate table names.
fn find_in_rollup_query(
    alloc: Global,
    fields: &ScopeFields,
    at: &str,
    rollup: &AggregateTable,
    findings: &mut Findings,
) -> Result<(), NoMemory>
    requires { IsTold fields.now }
    ensures { IfOk result (λ _. findings.new.first ≡ fold sooner findings.old.first
        (query_findings fields.now.views.now fields.now.scope.now rollup.now.name at.now rollup.now.filters rollup.now.entries)) }
{
    find_in_query(
        alloc,
        fields,
        rollup.name.as_str(),
        at,
        rollup.filters.as_slice(),
        rollup.entries.as_slice(),
        findings,
    )
}
