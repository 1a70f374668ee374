ghost use Rattle.std.specs.Prelude.{◌≡◌, ◌++◌, IfOk, flat_map, map, option_map};
ghost use Rattle.std.specs.List.{position};
ghost use Rattle.lk_val.specs.Texts.{is_same_text};
ghost use Rattle.lk_scope.specs.Scopes.{scope_of};
ghost use Rattle.lk_scope.specs.Told.{IsTold};
ghost use Rattle.lk_resolved.specs.DerivedTables.{derived_over};
ghost use Rattle.lk_resolved.specs.Explores.{datagroup_number, explore_of};
ghost use Rattle.lk_resolved.specs.Names.{or_zero};
ghost use Rattle.lk_model.specs.Models.{datagroup_with, derived_in, derived_of, derived_with, explore_in, explore_number, model_of, names_of, resolved, source_scope};
ghost use Rattle.lk_model.specs.ViewKinds.{columns_in, source_named};

use crate::view_kinds::{ViewKinds, source_named};
use lk_fields::Scope;
use lk_formulas::{ColumnKinds, FieldTable, UnknownColumn};
use lk_objects::{Declared, DeclaredDatagroup, DeclaredExplore, DeclaredView, DerivedTable, Rows};
use lk_resolved::{ModelFields, resolved_derived, resolved_explore};
use lk_scope::{ScopeFields, scope_of};
use lk_types::{Datagroup, Derived, Explore, Model, Schema};
use lk_val::{Copied, Items, NoMemory, Text};
use std::alloc::Global;

/// The model of what the objects of a project say, given the kinds of the columns of its views: explores, derived tables and
/// datagroups by name. It is meant for a project whose objects have no fault. (Looker, LookML reference: explore,
/// derived_table, datagroup; lookd)
pub fn model_of(
    alloc: Global,
    schema: &Schema,
    declared: &Declared,
    kinds: &ViewKinds,
) -> Result<Model, NoMemory>
    ensures { IfOk result (λ model. model ≡ model_of schema.now declared.now kinds.now) }
{
    let names = names_of(alloc, declared.datagroups.as_slice())?;
    Ok(Model {
        schema: schema.copied(alloc)?,
        explores: explores(alloc, schema, declared, kinds, names.as_slice())?,
        derived: derived(alloc, schema, declared, names.as_slice())?,
        datagroups: datagroups(alloc, declared.datagroups.as_slice())?,
    })
}

fn names_of(alloc: Global, datagroups: &[DeclaredDatagroup]) -> Result<Items<Text>, NoMemory>
    ensures { IfOk result (λ names. names ≡ names_of datagroups.now) }
{
    let mut names = Items::new(alloc);
    for datagroup in datagroups {
        names.push(datagroup.name.copy(alloc)?)?;
    }
    Ok(names)
}

fn datagroups(alloc: Global, declared: &[DeclaredDatagroup]) -> Result<Items<Datagroup>, NoMemory>
    ensures { IfOk result (λ made. made ≡ map datagroup_with declared.now) }
{
    let mut made = Items::new(alloc);
    for datagroup in declared {
        made.push(datagroup_with(alloc, datagroup)?)?;
    }
    Ok(made)
}

fn datagroup_with(alloc: Global, declared: &DeclaredDatagroup) -> Result<Datagroup, NoMemory>
    ensures { IfOk result (λ made. made ≡ datagroup_with declared.now) }
{
    Ok(Datagroup {
        name: declared.name.copy(alloc)?,
        trigger: declared.trigger,
        interval: declared.interval,
    })
}

fn explores(
    alloc: Global,
    schema: &Schema,
    declared: &Declared,
    kinds: &ViewKinds,
    names: &[Text],
) -> Result<Items<Explore>, NoMemory>
    requires names { names.now ≡ names_of declared.now.datagroups }
    ensures { IfOk result (λ made. made ≡ map (resolved schema.now declared.now kinds.now) declared.now.explores) }
{
    let mut made = Items::new(alloc);
    for explore in declared.explores.as_slice() {
        made.push(resolved(alloc, schema, declared, kinds, names, explore)?)?;
    }
    Ok(made)
}

fn resolved(
    alloc: Global,
    schema: &Schema,
    declared: &Declared,
    kinds: &ViewKinds,
    names: &[Text],
    explore: &DeclaredExplore,
) -> Result<Explore, NoMemory>
    requires names { names.now ≡ names_of declared.now.datagroups }
    ensures { IfOk result (λ made. made ≡ resolved schema.now declared.now kinds.now explore.now) }
{
    let views = declared.views.as_slice();
    let scope = scope_of(alloc, views, explore)?;
    explore_in(alloc, schema, views, kinds, names, explore, &scope)
}

fn explore_in(
    alloc: Global,
    schema: &Schema,
    views: &[DeclaredView],
    kinds: &ViewKinds,
    names: &[Text],
    explore: &DeclaredExplore,
    scope: &Scope,
) -> Result<Explore, NoMemory>
    ensures { IfOk result (λ made. made
        ≡ explore_of schema.now views.now scope.now (columns_in kinds.now scope.now) (datagroup_number names.now) explore.now) }
{
    let columns = kinds.columns_in(alloc, scope)?;
    explore_over(alloc, schema, views, names, explore, scope, &columns)
}

// Over columns of these kinds.
fn explore_over(
    alloc: Global,
    schema: &Schema,
    views: &[DeclaredView],
    names: &[Text],
    explore: &DeclaredExplore,
    scope: &Scope,
    columns: &ColumnKinds,
) -> Result<Explore, NoMemory>
    ensures { IfOk result (λ made. made
        ≡ explore_of schema.now views.now scope.now columns.now (datagroup_number names.now) explore.now) }
{
    let table = FieldTable::of(alloc, schema, views, scope, columns, UnknownColumn::Null)?;
    let fields = ScopeFields {
        schema,
        views,
        scope,
        columns,
        table: &table,
    };
    explore_of_fields(alloc, &fields, names, explore)
}

// Over the fields of its scope. Their table of kept columns is made here, so that no function lets go of two tables.
fn explore_of_fields(
    alloc: Global,
    fields: &ScopeFields,
    names: &[Text],
    explore: &DeclaredExplore,
) -> Result<Explore, NoMemory>
    requires { IsTold fields.now }
    ensures { IfOk result (λ made. made
        ≡ explore_of fields.now.schema.now fields.now.views.now fields.now.scope.now fields.now.columns.now (datagroup_number names.now) explore.now) }
{
    let kept = FieldTable::of(
        alloc,
        fields.schema,
        fields.views,
        fields.scope,
        fields.columns,
        UnknownColumn::Kept,
    )?;
    let model = ModelFields {
        fields,
        kept: &kept,
    };
    resolved_explore(alloc, &model, names, explore)
}

fn derived(
    alloc: Global,
    schema: &Schema,
    declared: &Declared,
    names: &[Text],
) -> Result<Items<Derived>, NoMemory>
    requires names { names.now ≡ names_of declared.now.datagroups }
    ensures { IfOk result (λ made. made ≡ flat_map (derived_of declared.now) declared.now.views) }
{
    let mut made = Items::new(alloc);
    for view in declared.views.as_slice() {
        add_derived(alloc, schema, declared, names, view, &mut made)?;
    }
    Ok(made)
}

fn add_derived(
    alloc: Global,
    schema: &Schema,
    declared: &Declared,
    names: &[Text],
    view: &DeclaredView,
    made: &mut Items<Derived>,
) -> Result<(), NoMemory>
    requires names { names.now ≡ names_of declared.now.datagroups }
    ensures { IfOk result (λ _. made.new ≡ made.old ++ derived_of declared.now view.now) }
{
    match &view.rows {
        Rows::Stored(_) => Ok(()),
        Rows::Derived(table) => {
            made.push(derived_with(alloc, schema, declared, names, &view.name, table)?)
        }
    }
}

fn derived_with(
    alloc: Global,
    schema: &Schema,
    declared: &Declared,
    names: &[Text],
    name: &Text,
    table: &DerivedTable,
) -> Result<Derived, NoMemory>
    requires names { names.now ≡ names_of declared.now.datagroups }
    ensures { IfOk result (λ made. made
        ≡ derived_in declared.now name.now table.now (source_scope declared.now.views (source_named declared.now.explores table.now.explore))) }
{
    let explores = declared.explores.as_slice();
    let views = declared.views.as_slice();
    let explore = explore_number(explores, &table.explore)?;
    let scope = source_scope(alloc, views, source_named(explores, &table.explore))?;
    derived_in(alloc, schema, views, names, name, table, explore, &scope)
}

fn source_scope(
    alloc: Global,
    views: &[DeclaredView],
    source: Option<&DeclaredExplore>,
) -> Result<Scope, NoMemory>
    ensures { IfOk result (λ scope. scope ≡ source_scope views.now (option_map (λ x. x.now) source.entry)) }
{
    match source {
        None => Ok(Scope {
            parts: Items::new(alloc),
        }),
        Some(source) => scope_of(alloc, views, source),
    }
}

fn explore_number(explores: &[DeclaredExplore], name: &Option<Text>) -> Result<u32, NoMemory>
    ensures { IfOk result (λ number. number ≡ explore_number explores.now name.now) }
{
    match name {
        None => Ok(0),
        Some(name) => as_number(place_of_explore(explores, name.as_str())),
    }
}

fn place_of_explore(explores: &[DeclaredExplore], name: &str) -> Option<usize>
    ensures { result ≡ position (λ x. is_same_text x.name name.now) explores.now }
{
    explores
        .iter()
        .position(|explore| explore.name.as_str() == name)
}

fn as_number(place: Option<usize>) -> Result<u32, NoMemory>
    ensures { IfOk result (λ number. number ≡ or_zero place) }
{
    match place {
        None => Ok(0),
        Some(place) => u32::try_from(place).map_err(|_| NoMemory),
    }
}

// A derived table takes names of its source alone, so the kinds of columns don't matter.
fn derived_in(
    alloc: Global,
    schema: &Schema,
    views: &[DeclaredView],
    names: &[Text],
    name: &Text,
    table: &DerivedTable,
    explore: u32,
    scope: &Scope,
) -> Result<Derived, NoMemory>
    ensures { IfOk result (λ made. made ≡ derived_over views.now scope.now names.now name.now table.now explore) }
{
    let columns = ColumnKinds {
        parts: Items::new(alloc),
    };
    let known = FieldTable::of(alloc, schema, views, scope, &columns, UnknownColumn::Null)?;
    let fields = ScopeFields {
        schema,
        views,
        scope,
        columns: &columns,
        table: &known,
    };
    resolved_derived(alloc, &fields, names, name, table, explore)
}
