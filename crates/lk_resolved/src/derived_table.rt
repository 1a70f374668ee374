ghost use Rattle.std.specs.Prelude.{◌≡◌, ◌++◌, IfOk, flat_map};
ghost use Rattle.lk_resolved.specs.DerivedTables.{column_of, column_with, datagroup_of, derived_over};
ghost use Rattle.lk_resolved.specs.Explores.{measure_numbers};
ghost use Rattle.lk_resolved.specs.Filters.{filters_named, listed};
ghost use Rattle.lk_resolved.specs.Names.{dimensions};
ghost use Rattle.lk_resolved.specs.Numbers.{AreNamed};
ghost use Rattle.lk_scope.specs.Told.{IsTold};

use crate::explore::position_of;
use crate::filters::{dimension_number, filters_named};
use crate::names::Named;
use lk_objects::{DeclaredColumn, DerivedTable};
use lk_scope::ScopeFields;
use lk_types::{Derived, Filter, Pick};
use lk_val::{Items, NoMemory, Text};
use std::alloc::Global;

/// The resolved derived table of a declared one, given the fields of the explore that it names, and that explore's number.
/// It is that of the model where the project has no fault; a column or filter that means nothing is left out. (Looker,
/// LookML reference: derived_table, explore_source; lookd)
pub fn resolved_derived(
    alloc: Global,
    fields: &ScopeFields,
    datagroups: &[Text],
    name: &Text,
    table: &DerivedTable,
    explore: u32,
) -> Result<Derived, NoMemory>
    requires told { IsTold fields.now }
    ensures { IfOk result (λ derived. derived ≡ derived_over fields.now.views.now fields.now.scope.now datagroups.now name.now table.now explore) }
{
    let datagroup = datagroup_of(datagroups, &table.datagroup)?;
    let name = name.copy(alloc)?;
    let taken = taken_fields(alloc, fields, table)?;
    Ok(Derived {
        name,
        explore,
        columns: taken.columns,
        filters: taken.filters,
        datagroup,
    })
}

// What a derived table takes from its explore, by the numbers of the fields.
#[derive(Drop)]
struct TakenFields {
    columns: Items<(Text, Pick)>,
    filters: Items<(u32, Filter)>,
}

fn taken_fields(
    alloc: Global,
    fields: &ScopeFields,
    table: &DerivedTable,
) -> Result<TakenFields, NoMemory>
    requires told { IsTold fields.now }
    ensures columns { IfOk result (λ taken. taken.columns
        ≡ flat_map (column_of fields.now.views.now fields.now.scope.now) table.now.columns) }
    ensures filters { IfOk result (λ taken. taken.filters
        ≡ filters_named fields.now.views.now fields.now.scope.now (dimensions fields.now.views.now fields.now.scope.now) table.now.filters) }
{
    let named = Named::of(alloc, fields)?;
    let columns = columns(alloc, fields, &named, table.columns.as_slice())?;
    let filters = filters_named(alloc, fields, &named, table.filters.as_slice())?;
    Ok(TakenFields { columns, filters })
}

fn columns(
    alloc: Global,
    fields: &ScopeFields,
    named: &Named,
    columns: &[DeclaredColumn],
) -> Result<Items<(Text, Pick)>, NoMemory>
    requires told { IsTold fields.now }
    requires named { AreNamed fields.now.views.now fields.now.scope.now named.now }
    ensures { IfOk result (λ made. made ≡ flat_map (column_of fields.now.views.now fields.now.scope.now) columns.now) }
{
    let mut made = Items::new(alloc);
    for column in columns {
        add_column(alloc, fields, named, column, &mut made)?;
    }
    Ok(made)
}

fn add_column(
    alloc: Global,
    fields: &ScopeFields,
    named: &Named,
    column: &DeclaredColumn,
    made: &mut Items<(Text, Pick)>,
) -> Result<(), NoMemory>
    requires told { IsTold fields.now }
    requires named { AreNamed fields.now.views.now fields.now.scope.now named.now }
    ensures { IfOk result (λ _. made.new ≡ made.old ++ column_of fields.now.views.now fields.now.scope.now column.now) }
{
    let name = column.field.as_str();
    let dimension = dimension_number(alloc, fields, named, name)?;
    let measure = measure_number(fields, named, name)?;
    add_taken(alloc, &column.name, dimension, measure, made)
}

fn add_taken(
    alloc: Global,
    name: &Text,
    dimension: Option<u32>,
    measure: Option<u32>,
    made: &mut Items<(Text, Pick)>,
) -> Result<(), NoMemory>
    ensures { IfOk result (λ _. made.new ≡ made.old ++ column_with name.now (listed dimension) (listed measure)) }
{
    match (dimension, measure) {
        (Some(d), _) => made.push((name.copy(alloc)?, Pick::Dim(d))),
        (None, Some(m)) => made.push((name.copy(alloc)?, Pick::Mea(m))),
        (None, None) => Ok(()),
    }
}

// The number of the measure that a whole name means, if it means one.
pub(crate) fn measure_number(
    fields: &ScopeFields,
    named: &Named,
    name: &str,
) -> Result<Option<u32>, NoMemory>
    requires told { IsTold fields.now }
    requires named { AreNamed fields.now.views.now fields.now.scope.now named.now }
    ensures { IfOk result (λ n. listed n ≡ measure_numbers fields.now.views.now fields.now.scope.now name.now) }
{
    match fields.measure_named(name)? {
        None => Ok(None),
        Some(found) => Ok(Some(named.measure(found.place)?)),
    }
}

// The number of a datagroup's name, if there is one.
fn datagroup_of(datagroups: &[Text], name: &Option<Text>) -> Result<Option<u32>, NoMemory>
    ensures { IfOk result (λ n. n ≡ datagroup_of datagroups.now name.now) }
{
    as_some_number(position_if(datagroups, name))
}

fn position_if(datagroups: &[Text], name: &Option<Text>) -> Option<usize>
    ensures { result ≡ datagroup_of datagroups.now name.now }
{
    match name {
        None => None,
        Some(name) => position_of(datagroups, name.as_str()),
    }
}

fn as_some_number(place: Option<usize>) -> Result<Option<u32>, NoMemory>
    ensures { IfOk result (λ n. n ≡ place) }
{
    match place {
        None => Ok(None),
        Some(place) => Ok(Some(u32::try_from(place).map_err(|_| NoMemory)?)),
    }
}
