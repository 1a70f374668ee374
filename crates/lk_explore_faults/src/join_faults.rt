ghost use Rattle.std.specs.Prelude.{◌≡◌, ◌&&◌, not, IfOk};
ghost use Rattle.std.specs.List.{flat_map, fold};
ghost use Rattle.lk_params.specs.Findings.{sooner};
ghost use Rattle.lk_scope.specs.Pieces.{IsTested, first_along, line_with};
ghost use Rattle.lk_scope.specs.Told.{IsTold};
ghost use Rattle.lk_explore_faults.specs.JoinFaults.{findings_at, has_join, is_cross, join_finding, join_findings, join_line, joins_findings, key_findings, lacks_key, own_findings, twin_line, view_findings};

use crate::explore_texts::find_in_text;
use lk_fields::view_at;
use lk_objects::{DeclaredExplore, DeclaredJoin};
use lk_params::{Findings, Number, Order, add_if, named_line};
use lk_scope::{ScopeFields, end_test, known_findings};
use lk_types::JoinKind;
use lk_val::{ModelFault, NoMemory, Text};
use std::alloc::Global;

// Tests an explore's own parameters, with its base view (N2) and the joins of `always_join` (N2).
pub(crate) fn test_own(
    alloc: Global,
    fields: &ScopeFields,
    explore: &DeclaredExplore,
) -> Result<(), ModelFault>
    ensures { IsTested result
        (line_with explore.now.first (own_findings fields.now.views.now fields.now.scope.now explore.now)) }
{
    let mut findings = known_findings(alloc, &explore.first)?;
    find_own(alloc, fields, explore, &mut findings)?;
    end_test(findings)
}

fn find_own(
    alloc: Global,
    fields: &ScopeFields,
    explore: &DeclaredExplore,
    findings: &mut Findings,
) -> Result<(), NoMemory>
    ensures { IfOk result (λ _. findings.new.first ≡ fold sooner findings.old.first
        (own_findings fields.now.views.now fields.now.scope.now explore.now)) }
{
    let object = explore.name.as_str();
    find_view(alloc, fields, object, 0, &explore.base, findings)?;
    find_joins(
        alloc,
        explore.joins.as_slice(),
        object,
        "always_join",
        explore.always_join.as_slice(),
        findings,
    )
}

// Tests that no join has the explore's name (N1).
pub(crate) fn test_twin(alloc: Global, explore: &DeclaredExplore) -> Result<(), ModelFault>
    ensures { IsTested result (twin_line explore.now) }
{
    let name = explore.name.as_str();
    if has_join(explore.joins.as_slice(), name) {
        Err(ModelFault::Fault(named_line(alloc, Number::N1, name, name)?))
    } else {
        Ok(())
    }
}

// Tests the joins of an explore, which are all of them, one after the other.
pub(crate) fn test_joins(
    alloc: Global,
    fields: &ScopeFields,
    joins: &[DeclaredJoin],
) -> Result<(), ModelFault>
    requires { IsTold fields.now }
    ensures { IsTested result
        (first_along (join_line fields.now.schema.now fields.now.views.now fields.now.scope.now joins.now) 1 joins.now) }
{
    // The base view is part 0.
    let mut part = 1usize;
    for join in joins {
        test_join(alloc, fields, joins, part, join)?;
        part += 1;
    }
    Ok(())
}

fn test_join(
    alloc: Global,
    fields: &ScopeFields,
    joins: &[DeclaredJoin],
    part: usize,
    join: &DeclaredJoin,
) -> Result<(), ModelFault>
    requires { IsTold fields.now }
    ensures { IsTested result
        (join_line fields.now.schema.now fields.now.views.now fields.now.scope.now joins.now part join.now) }
{
    let mut findings = known_findings(alloc, &join.first)?;
    find_in_join(alloc, fields, joins, part, join, &mut findings)?;
    end_test(findings)
}

// The faults of a join, which brings this part, beside those of its own parameters.
fn find_in_join(
    alloc: Global,
    fields: &ScopeFields,
    joins: &[DeclaredJoin],
    part: usize,
    join: &DeclaredJoin,
    findings: &mut Findings,
) -> Result<(), NoMemory>
    requires { IsTold fields.now }
    ensures { IfOk result (λ _. findings.new.first ≡ fold sooner findings.old.first
        (join_findings fields.now.schema.now fields.now.views.now fields.now.scope.now joins.now part join.now)) }
{
    find_at(
        alloc,
        fields,
        "required_joins",
        "sql_on",
        "foreign_key",
        joins,
        part,
        join,
        findings,
    )
}

// The same, given the names of the parameters.
fn find_at(
    alloc: Global,
    fields: &ScopeFields,
    required: &str,
    on: &str,
    key: &str,
    joins: &[DeclaredJoin],
    part: usize,
    join: &DeclaredJoin,
    findings: &mut Findings,
) -> Result<(), NoMemory>
    requires { IsTold fields.now }
    ensures { IfOk result (λ _. findings.new.first ≡ fold sooner findings.old.first
        (findings_at fields.now.schema.now fields.now.views.now fields.now.scope.now required.now on.now key.now joins.now part join.now)) }
{
    let object = join.name.as_str();
    let names = join.required.as_slice();
    find_view(alloc, fields, object, part, &join.view, findings)?;
    find_joins(alloc, joins, object, required, names, findings)?;
    find_in_text(alloc, fields, object, on, &join.on, findings)?;
    find_in_key(alloc, fields, key, part, join, &join.foreign_key, findings)
}

// A view that nobody declares, at an explore or a join whose part is this one.
fn find_view(
    alloc: Global,
    fields: &ScopeFields,
    object: &str,
    part: usize,
    view: &Option<Text>,
    findings: &mut Findings,
) -> Result<(), NoMemory>
    ensures { IfOk result (λ _. findings.new.first ≡ fold sooner findings.old.first
        (view_findings fields.now.views.now fields.now.scope.now object.now part view.now)) }
{
    match view {
        None => Ok(()),
        Some(name) => {
            let so = view_at(fields.views, fields.scope, part).is_none();
            let (order, name) = (Order::Object, name.as_str());
            add_if(alloc, so, order, Number::N2, "from", object, name, findings)
        }
    }
}

// Names of joins that the explore has not.
fn find_joins(
    alloc: Global,
    joins: &[DeclaredJoin],
    object: &str,
    at: &str,
    names: &[Text],
    findings: &mut Findings,
) -> Result<(), NoMemory>
    ensures { IfOk result (λ _. findings.new.first ≡ fold sooner findings.old.first
        (joins_findings joins.now object.now at.now names.now)) }
{
    for name in names {
        find_join(alloc, joins, object, at, name.as_str(), findings)?;
    }
    Ok(())
}

fn find_join(
    alloc: Global,
    joins: &[DeclaredJoin],
    object: &str,
    at: &str,
    name: &str,
    findings: &mut Findings,
) -> Result<(), NoMemory>
    ensures { IfOk result (λ _. findings.new.first ≡ fold sooner findings.old.first
        (join_finding joins.now object.now at.now name.now)) }
{
    let so = !has_join(joins, name);
    add_if(
        alloc,
        so,
        Order::Object,
        Number::N2,
        at,
        object,
        name,
        findings,
    )
}

fn has_join(joins: &[DeclaredJoin], name: &str) -> bool
    ensures { result ≡ has_join joins.now name.now }
{
    joins.iter().any(|join| join.name.as_str() == name)
}

// A `foreign_key` of no dimension (N3), and one to a view without a primary key (N8).
fn find_in_key(
    alloc: Global,
    fields: &ScopeFields,
    at: &str,
    part: usize,
    join: &DeclaredJoin,
    key: &Option<Text>,
    findings: &mut Findings,
) -> Result<(), NoMemory>
    requires { IsTold fields.now }
    ensures { IfOk result (λ _. findings.new.first ≡ fold sooner findings.old.first
        (key_findings fields.now.views.now fields.now.scope.now at.now part join.now key.now)) }
{
    match key {
        None => Ok(()),
        Some(name) => {
            let (name, object) = (name.as_str(), join.name.as_str());
            let no_field = fields.dimension_named(name)?.is_none();
            let no_key = wants_key(fields, part, join.kind)?;
            let order = Order::Object;
            add_if(
                alloc,
                no_field,
                order,
                Number::N3,
                at,
                object,
                name,
                findings,
            )?;
            add_if(alloc, no_key, order, Number::N8, at, object, "", findings)
        }
    }
}

// The part of a join, but a cross, has a view without a primary key.
fn wants_key(fields: &ScopeFields, part: usize, kind: JoinKind) -> Result<bool, NoMemory>
    requires { IsTold fields.now }
    ensures { IfOk result (λ wants. wants
        ≡ (not (is_cross kind) && lacks_key fields.now.views.now fields.now.scope.now part)) }
{
    let lacks = lacks_key(fields, part)?;
    Ok(!is_cross(kind) && lacks)
}

fn is_cross(kind: JoinKind) -> bool
    ensures { result ≡ is_cross kind }
{
    match kind {
        JoinKind::Cross => true,
        _ => false,
    }
}

// The part has a view, and that no primary key in the explore.
fn lacks_key(fields: &ScopeFields, part: usize) -> Result<bool, NoMemory>
    requires { IsTold fields.now }
    ensures { IfOk result (λ lacks. lacks ≡ lacks_key fields.now.views.now fields.now.scope.now part) }
{
    let has_view = view_at(fields.views, fields.scope, part).is_some();
    let has_no_key = fields.key_of(part)?.is_none();
    Ok(has_view && has_no_key)
}
