ghost use Rattle.std.specs.Prelude.{◌≡◌};
ghost use Rattle.lk_scope.specs.Pieces.{IsTested, first_along, first_at};
ghost use Rattle.lk_scope.specs.Scopes.{alone, scope_of};
ghost use Rattle.lk_field_faults.specs.FieldFaults.{view_fields_fault};
ghost use Rattle.lk_explore_faults.specs.ExploreFaults.{explore_fault};
ghost use Rattle.lk_model.specs.Faults.{datagroup_line, explore_line, explore_line_in, fields_line_in, objects_fault, view_line};

use crate::view_kinds::ViewKinds;
use lk_explore_faults::{test_explore, test_view};
use lk_field_faults::test_view_fields;
use lk_fields::Scope;
use lk_formulas::{ColumnKinds, FieldTable, UnknownColumn};
use lk_objects::{Declared, DeclaredDatagroup, DeclaredExplore, DeclaredView};
use lk_scope::{ScopeFields, alone, end_test, known_findings, scope_of};
use lk_types::Schema;
use lk_val::{ModelFault, NoMemory};
use std::alloc::Global;

/// Tests the objects of a project, given the kinds of the columns of its views: the views, the datagroups and then the
/// explores, each by name. Of a view come what it has itself and names, and then its fields. (lookd)
pub fn test_objects(
    alloc: Global,
    schema: &Schema,
    declared: &Declared,
    kinds: &ViewKinds,
) -> Result<(), ModelFault>
    ensures { IsTested result (objects_fault schema.now declared.now kinds.now) }
{
    test_views(alloc, schema, declared, kinds)?;
    test_datagroups(alloc, declared.datagroups.as_slice())?;
    test_explores(alloc, schema, declared, kinds)
}

fn test_views(
    alloc: Global,
    schema: &Schema,
    declared: &Declared,
    kinds: &ViewKinds,
) -> Result<(), ModelFault>
    ensures { IsTested result (first_along (view_line schema.now declared.now kinds.now) 0 declared.now.views) }
{
    let mut number = 0usize;
    for view in declared.views.as_slice() {
        test_view_and_fields(alloc, schema, declared, kinds, number, view)?;
        number += 1;
    }
    Ok(())
}

fn test_view_and_fields(
    alloc: Global,
    schema: &Schema,
    declared: &Declared,
    kinds: &ViewKinds,
    number: usize,
    view: &DeclaredView,
) -> Result<(), ModelFault>
    ensures { IsTested result (view_line schema.now declared.now kinds.now number view.now) }
{
    test_view(alloc, schema, declared, view)?;
    test_alone(alloc, schema, declared, kinds, number, view)
}

// The fields of a view, in its own scope.
fn test_alone(
    alloc: Global,
    schema: &Schema,
    declared: &Declared,
    kinds: &ViewKinds,
    number: usize,
    view: &DeclaredView,
) -> Result<(), ModelFault>
    ensures { IsTested result (fields_line_in schema.now declared.now kinds.now (alone number view.now)) }
{
    let number = u32::try_from(number).map_err(|_| NoMemory)?;
    let scope = alone(alloc, number, view)?;
    test_fields_in(alloc, schema, declared, kinds, &scope)
}

fn test_fields_in(
    alloc: Global,
    schema: &Schema,
    declared: &Declared,
    kinds: &ViewKinds,
    scope: &Scope,
) -> Result<(), ModelFault>
    ensures { IsTested result (fields_line_in schema.now declared.now kinds.now scope.now) }
{
    let columns = kinds.columns_in(alloc, scope)?;
    test_fields_over(alloc, schema, declared.views.as_slice(), scope, &columns)
}

// Over columns of these kinds.
fn test_fields_over(
    alloc: Global,
    schema: &Schema,
    views: &[DeclaredView],
    scope: &Scope,
    columns: &ColumnKinds,
) -> Result<(), ModelFault>
    ensures { IsTested result (view_fields_fault schema.now views.now scope.now columns.now) }
{
    let table = FieldTable::of(alloc, schema, views, scope, columns, UnknownColumn::Null)?;
    let fields = ScopeFields {
        schema,
        views,
        scope,
        columns,
        table: &table,
    };
    test_view_fields(alloc, &fields)
}

fn test_datagroups(alloc: Global, datagroups: &[DeclaredDatagroup]) -> Result<(), ModelFault>
    ensures { IsTested result (first_at datagroup_line datagroups.now) }
{
    for datagroup in datagroups {
        test_datagroup(alloc, datagroup)?;
    }
    Ok(())
}

fn test_datagroup(alloc: Global, datagroup: &DeclaredDatagroup) -> Result<(), ModelFault>
    ensures { IsTested result (datagroup_line datagroup.now) }
{
    end_test(known_findings(alloc, &datagroup.first)?)
}

fn test_explores(
    alloc: Global,
    schema: &Schema,
    declared: &Declared,
    kinds: &ViewKinds,
) -> Result<(), ModelFault>
    ensures { IsTested result (first_at (explore_line schema.now declared.now kinds.now) declared.now.explores) }
{
    for explore in declared.explores.as_slice() {
        test_one_explore(alloc, schema, declared, kinds, explore)?;
    }
    Ok(())
}

fn test_one_explore(
    alloc: Global,
    schema: &Schema,
    declared: &Declared,
    kinds: &ViewKinds,
    explore: &DeclaredExplore,
) -> Result<(), ModelFault>
    ensures { IsTested result (explore_line schema.now declared.now kinds.now explore.now) }
{
    let scope = scope_of(alloc, declared.views.as_slice(), explore)?;
    test_explore_in(alloc, schema, declared, kinds, &scope, explore)
}

fn test_explore_in(
    alloc: Global,
    schema: &Schema,
    declared: &Declared,
    kinds: &ViewKinds,
    scope: &Scope,
    explore: &DeclaredExplore,
) -> Result<(), ModelFault>
    ensures { IsTested result (explore_line_in schema.now declared.now kinds.now explore.now scope.now) }
{
    let columns = kinds.columns_in(alloc, scope)?;
    let views = declared.views.as_slice();
    let datagroups = declared.datagroups.as_slice();
    test_explore_over(alloc, schema, views, scope, &columns, datagroups, explore)
}

fn test_explore_over(
    alloc: Global,
    schema: &Schema,
    views: &[DeclaredView],
    scope: &Scope,
    columns: &ColumnKinds,
    datagroups: &[DeclaredDatagroup],
    explore: &DeclaredExplore,
) -> Result<(), ModelFault>
    ensures { IsTested result (explore_fault schema.now views.now scope.now columns.now datagroups.now explore.now) }
{
    let table = FieldTable::of(alloc, schema, views, scope, columns, UnknownColumn::Null)?;
    let fields = ScopeFields {
        schema,
        views,
        scope,
        columns,
        table: &table,
    };
    test_explore(alloc, &fields, datagroups, explore)
}
