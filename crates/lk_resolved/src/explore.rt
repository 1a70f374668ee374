ghost use Rattle.std.specs.Prelude.{◌≡◌, ◌++◌, Some, IfOk, flat_map, map, option_map};
ghost use Rattle.std.specs.List.{position};
ghost use Rattle.lk_val.specs.Texts.{is_same_text};
ghost use Rattle.lk_resolved.specs.Explores.{access_in, access_with, always_in, datagroup_number, explore_of, first_where, joins_from, joins_named, measure_numbers, parts_from, rollup_with, where_with};
ghost use Rattle.lk_resolved.specs.Fields.{all_measures, field_with, fields, measure_at};
ghost use Rattle.lk_resolved.specs.Filters.{numbers_of_dimensions};
ghost use Rattle.lk_resolved.specs.Numbers.{AreNamed};
ghost use Rattle.lk_resolved.specs.Told.{IsModelTold};

use crate::derived_table::measure_number;
use crate::fields::fields;
use crate::filters::{dimension_number, filters_named, numbers_of_dimensions};
use crate::formulas::ModelFields;
use crate::joins::{joins, joins_named};
use crate::measures::measures;
use crate::names::Named;
use crate::numbers::as_number;
use crate::parts::parts;
use lk_fields::Writer;
use lk_objects::{AccessFilter, AggregateTable, Code, DeclaredExplore, ExploreFilter};
use lk_types::{Explore, Expr, Field, Filter, Join, Measure, Part, Rollup};
use lk_val::{Items, NoMemory, Text};
use std::alloc::Global;

/// The resolved explore of a declared one: names are numbers, references are put in, and filters are read. `datagroups`
/// are the names of the datagroups, of which each stands for its place. It is the explore of the model where the project
/// has no fault; what is missing elsewhere is null, the first, or left out. (Looker, LookML reference: explore; lookd)
pub fn resolved_explore(
    alloc: Global,
    model: &ModelFields,
    datagroups: &[Text],
    x: &DeclaredExplore,
) -> Result<Explore, NoMemory>
    requires told { IsModelTold model.now }
    ensures { IfOk result (λ explore. explore
        ≡ explore_of model.now.fields.now.schema.now model.now.fields.now.views.now model.now.fields.now.scope.now model.now.fields.now.columns.now (datagroup_number datagroups.now) x.now) }
{
    let name = x.name.copy(alloc)?;
    let views = resolved_views(alloc, model, x)?;
    let numbered = numbered_parts(alloc, model, datagroups, x)?;
    Ok(Explore {
        name,
        parts: views.parts,
        joins: views.joins,
        fields: numbered.lists.fields,
        measures: numbered.lists.measures,
        always_join: views.always_join,
        always: numbered.limits.always,
        always_where: numbered.limits.always_where,
        access: numbered.limits.access,
        rollups: numbered.rollups,
    })
}

// The fields of an explore, and what names them by their numbers.
#[derive(Drop)]
struct NumberedParts {
    lists: FieldLists,
    limits: RowLimits,
    rollups: Items<Rollup>,
}

fn numbered_parts(
    alloc: Global,
    model: &ModelFields,
    datagroups: &[Text],
    x: &DeclaredExplore,
) -> Result<NumberedParts, NoMemory>
    requires told { IsModelTold model.now }
    ensures fields { IfOk result (λ made. made.lists.fields
        ≡ fields model.now.fields.now.schema.now model.now.fields.now.views.now model.now.fields.now.scope.now model.now.fields.now.columns.now) }
    ensures measures { IfOk result (λ made. made.lists.measures
        ≡ all_measures model.now.fields.now.schema.now model.now.fields.now.views.now model.now.fields.now.scope.now model.now.fields.now.columns.now) }
    ensures always { IfOk result (λ made. made.limits.always
        ≡ flat_map (always_in model.now.fields.now.views.now model.now.fields.now.scope.now) x.now.filters) }
    ensures condition { IfOk result (λ made. made.limits.always_where
        ≡ where_with model.now.fields.now.schema.now model.now.fields.now.views.now model.now.fields.now.scope.now model.now.fields.now.columns.now (first_where x.now.filters)) }
    ensures access { IfOk result (λ made. made.limits.access
        ≡ flat_map (access_in model.now.fields.now.views.now model.now.fields.now.scope.now) x.now.filters) }
    ensures rollups { IfOk result (λ made. made.rollups
        ≡ map (rollup_with model.now.fields.now.views.now model.now.fields.now.scope.now (datagroup_number datagroups.now)) x.now.rollups) }
{
    let named = Named::of(alloc, model.fields)?;
    let rollups = rollups(alloc, model, &named, datagroups, x.rollups.as_slice())?;
    let limits = resolved_limits(alloc, model, &named, x.filters.as_slice())?;
    let lists = fields_and_measures(alloc, model, &named)?;
    Ok(NumberedParts {
        lists,
        limits,
        rollups,
    })
}

// The views of an explore and its joins.
#[derive(Drop)]
struct ViewParts {
    parts: Items<Part>,
    joins: Items<Join>,
    always_join: Items<u32>,
}

fn resolved_views(
    alloc: Global,
    model: &ModelFields,
    x: &DeclaredExplore,
) -> Result<ViewParts, NoMemory>
    requires told { IsModelTold model.now }
    ensures parts { IfOk result (λ views. views.parts
        ≡ parts_from model.now.fields.now.schema.now model.now.fields.now.views.now model.now.fields.now.scope.now model.now.fields.now.columns.now 0 model.now.fields.now.scope.now.parts) }
    ensures joins { IfOk result (λ views. views.joins
        ≡ joins_from model.now.fields.now.schema.now model.now.fields.now.views.now model.now.fields.now.scope.now model.now.fields.now.columns.now x.now.joins 1 x.now.joins) }
    ensures always { IfOk result (λ views. views.always_join ≡ joins_named x.now.joins x.now.always_join) }
{
    let parts = parts(alloc, model)?;
    let joins = joins(alloc, model, x.joins.as_slice())?;
    let always_join = joins_named(alloc, x.joins.as_slice(), x.always_join.as_slice())?;
    Ok(ViewParts {
        parts,
        joins,
        always_join,
    })
}

// The dimensions and the measures of an explore.
#[derive(Drop)]
struct FieldLists {
    fields: Items<Field>,
    measures: Items<Measure>,
}

fn fields_and_measures(
    alloc: Global,
    model: &ModelFields,
    named: &Named,
) -> Result<FieldLists, NoMemory>
    requires told { IsModelTold model.now }
    requires named { AreNamed model.now.fields.now.views.now model.now.fields.now.scope.now named.now }
    ensures fields { IfOk result (λ made. made.fields
        ≡ map (field_with model.now.fields.now.schema.now model.now.fields.now.views.now model.now.fields.now.scope.now model.now.fields.now.columns.now) named.now.dimensions) }
    ensures measures { IfOk result (λ made. made.measures
        ≡ flat_map (measure_at model.now.fields.now.schema.now model.now.fields.now.views.now model.now.fields.now.scope.now model.now.fields.now.columns.now) named.now.measures) }
{
    let fields = fields(alloc, model, named)?;
    let measures = measures(alloc, model, named)?;
    Ok(FieldLists { fields, measures })
}

// What limits the rows of an explore.
#[derive(Drop)]
struct RowLimits {
    always: Items<(u32, Filter)>,
    always_where: Option<Expr>,
    access: Items<(u32, Text)>,
}

fn resolved_limits(
    alloc: Global,
    model: &ModelFields,
    named: &Named,
    filters: &[ExploreFilter],
) -> Result<RowLimits, NoMemory>
    requires told { IsModelTold model.now }
    requires named { AreNamed model.now.fields.now.views.now model.now.fields.now.scope.now named.now }
    ensures always { IfOk result (λ limits. limits.always ≡ flat_map (always_in model.now.fields.now.views.now model.now.fields.now.scope.now) filters.now) }
    ensures condition { IfOk result (λ limits. limits.always_where
        ≡ where_with model.now.fields.now.schema.now model.now.fields.now.views.now model.now.fields.now.scope.now model.now.fields.now.columns.now (first_where filters.now)) }
    ensures access { IfOk result (λ limits. limits.access ≡ flat_map (access_in model.now.fields.now.views.now model.now.fields.now.scope.now) filters.now) }
{
    let always = always(alloc, model, named, filters)?;
    let always_where = where_with(alloc, model, first_where(filters))?;
    let access = access(alloc, model, named, filters)?;
    Ok(RowLimits {
        always,
        always_where,
        access,
    })
}

fn always(
    alloc: Global,
    model: &ModelFields,
    named: &Named,
    filters: &[ExploreFilter],
) -> Result<Items<(u32, Filter)>, NoMemory>
    requires told { IsModelTold model.now }
    requires named { AreNamed model.now.fields.now.views.now model.now.fields.now.scope.now named.now }
    ensures { IfOk result (λ always. always ≡ flat_map (always_in model.now.fields.now.views.now model.now.fields.now.scope.now) filters.now) }
{
    let mut always = Items::new(alloc);
    for filter in filters {
        add_always(alloc, model, named, filter, &mut always)?;
    }
    Ok(always)
}

fn add_always(
    alloc: Global,
    model: &ModelFields,
    named: &Named,
    filter: &ExploreFilter,
    always: &mut Items<(u32, Filter)>,
) -> Result<(), NoMemory>
    requires told { IsModelTold model.now }
    requires named { AreNamed model.now.fields.now.views.now model.now.fields.now.scope.now named.now }
    ensures { IfOk result (λ _. always.new ≡ always.old ++ always_in model.now.fields.now.views.now model.now.fields.now.scope.now filter.now) }
{
    match filter {
        ExploreFilter::Always(declared) => {
            let read = filters_named(alloc, model.fields, named, declared.filters.as_slice())?;
            add_all(read, always)
        }
        ExploreFilter::Access(_) | ExploreFilter::Where(_, _) => Ok(()),
    }
}

fn add_all(read: Items<(u32, Filter)>, always: &mut Items<(u32, Filter)>) -> Result<(), NoMemory>
    ensures { IfOk result (λ _. always.new ≡ always.old ++ read) }
{
    for filter in read.into_vec() {
        always.push(filter)?;
    }
    Ok(())
}

// The code of the first `sql_always_where`.
fn first_where(filters: &[ExploreFilter]) -> Option<&Code>
    ensures { option_map (λ c. c.now) result ≡ first_where filters.now }
{
    for filter in filters {
        if let ExploreFilter::Where(code, _) = filter {
            return Some(code);
        }
    }
    None
}

fn where_with(
    alloc: Global,
    model: &ModelFields,
    code: Option<&Code>,
) -> Result<Option<Expr>, NoMemory>
    requires told { IsModelTold model.now }
    ensures { IfOk result (λ e. e
        ≡ where_with model.now.fields.now.schema.now model.now.fields.now.views.now model.now.fields.now.scope.now model.now.fields.now.columns.now (option_map (λ c. c.now) code.entry)) }
{
    match code {
        Some(code) => where_of(alloc, model, code),
        None => Ok(None),
    }
}

fn where_of(alloc: Global, model: &ModelFields, code: &Code) -> Result<Option<Expr>, NoMemory>
    requires told { IsModelTold model.now }
    ensures { IfOk result (λ e. e
        ≡ where_with model.now.fields.now.schema.now model.now.fields.now.views.now model.now.fields.now.scope.now model.now.fields.now.columns.now (Some code.now)) }
{
    match code {
        Code::Expr(_) => Ok(Some(model.code(alloc, Writer::Explore, code)?)),
        _ => Ok(None),
    }
}

fn access(
    alloc: Global,
    model: &ModelFields,
    named: &Named,
    filters: &[ExploreFilter],
) -> Result<Items<(u32, Text)>, NoMemory>
    requires told { IsModelTold model.now }
    requires named { AreNamed model.now.fields.now.views.now model.now.fields.now.scope.now named.now }
    ensures { IfOk result (λ access. access ≡ flat_map (access_in model.now.fields.now.views.now model.now.fields.now.scope.now) filters.now) }
{
    let mut access = Items::new(alloc);
    for filter in filters {
        add_access(alloc, model, named, filter, &mut access)?;
    }
    Ok(access)
}

fn add_access(
    alloc: Global,
    model: &ModelFields,
    named: &Named,
    filter: &ExploreFilter,
    access: &mut Items<(u32, Text)>,
) -> Result<(), NoMemory>
    requires told { IsModelTold model.now }
    requires named { AreNamed model.now.fields.now.views.now model.now.fields.now.scope.now named.now }
    ensures { IfOk result (λ _. access.new ≡ access.old ++ access_in model.now.fields.now.views.now model.now.fields.now.scope.now filter.now) }
{
    match filter {
        ExploreFilter::Access(declared) => add_declared(alloc, model, named, declared, access),
        ExploreFilter::Always(_) | ExploreFilter::Where(_, _) => Ok(()),
    }
}

fn add_declared(
    alloc: Global,
    model: &ModelFields,
    named: &Named,
    declared: &AccessFilter,
    access: &mut Items<(u32, Text)>,
) -> Result<(), NoMemory>
    requires told { IsModelTold model.now }
    requires named { AreNamed model.now.fields.now.views.now model.now.fields.now.scope.now named.now }
    ensures { IfOk result (λ _. access.new ≡ access.old ++ access_with model.now.fields.now.views.now model.now.fields.now.scope.now declared.now.field declared.now.attribute) }
{
    match (&declared.field, &declared.attribute) {
        (Some(name), Some(attribute)) => {
            match dimension_number(alloc, model.fields, named, name.as_str())? {
                None => Ok(()),
                Some(number) => access.push((number, attribute.copy(alloc)?)),
            }
        }
        _ => Ok(()),
    }
}

fn rollups(
    alloc: Global,
    model: &ModelFields,
    named: &Named,
    datagroups: &[Text],
    rollups: &[AggregateTable],
) -> Result<Items<Rollup>, NoMemory>
    requires told { IsModelTold model.now }
    requires named { AreNamed model.now.fields.now.views.now model.now.fields.now.scope.now named.now }
    ensures { IfOk result (λ made. made ≡ map (rollup_with model.now.fields.now.views.now model.now.fields.now.scope.now (datagroup_number datagroups.now)) rollups.now) }
{
    let mut made = Items::new(alloc);
    for rollup in rollups {
        made.push(rollup_with(alloc, model, named, datagroups, rollup)?)?;
    }
    Ok(made)
}

fn rollup_with(
    alloc: Global,
    model: &ModelFields,
    named: &Named,
    datagroups: &[Text],
    rollup: &AggregateTable,
) -> Result<Rollup, NoMemory>
    requires told { IsModelTold model.now }
    requires named { AreNamed model.now.fields.now.views.now model.now.fields.now.scope.now named.now }
    ensures { IfOk result (λ made. made ≡ rollup_with model.now.fields.now.views.now model.now.fields.now.scope.now (datagroup_number datagroups.now) rollup.now) }
{
    let datagroup = datagroup_number(datagroups, &rollup.datagroup)?;
    let name = rollup.name.copy(alloc)?;
    let numbers = numbers_of_fields(alloc, model, named, rollup)?;
    let filters = filters_named(alloc, model.fields, named, rollup.filters.as_slice())?;
    Ok(Rollup {
        name,
        dims: numbers.dimensions,
        measures: numbers.measures,
        filters,
        datagroup,
    })
}

// The numbers of the dimensions and of the measures that an aggregate table names.
#[derive(Drop)]
struct FieldNumbers {
    dimensions: Items<u32>,
    measures: Items<u32>,
}

fn numbers_of_fields(
    alloc: Global,
    model: &ModelFields,
    named: &Named,
    rollup: &AggregateTable,
) -> Result<FieldNumbers, NoMemory>
    requires told { IsModelTold model.now }
    requires named { AreNamed model.now.fields.now.views.now model.now.fields.now.scope.now named.now }
    ensures dimensions { IfOk result (λ numbers. numbers.dimensions
        ≡ numbers_of_dimensions model.now.fields.now.views.now model.now.fields.now.scope.now named.now.dimensions rollup.now.dimensions) }
    ensures measures { IfOk result (λ numbers. numbers.measures
        ≡ flat_map (measure_numbers model.now.fields.now.views.now model.now.fields.now.scope.now) rollup.now.measures) }
{
    let dimensions = numbers_of_dimensions(
        alloc,
        model.fields,
        named,
        rollup.dimensions.as_slice(),
    )?;
    let measures = numbers_of_measures(alloc, model, named, rollup.measures.as_slice())?;
    Ok(FieldNumbers {
        dimensions,
        measures,
    })
}

// The numbers of the measures that some names mean.
fn numbers_of_measures(
    alloc: Global,
    model: &ModelFields,
    named: &Named,
    names: &[Text],
) -> Result<Items<u32>, NoMemory>
    requires told { IsModelTold model.now }
    requires named { AreNamed model.now.fields.now.views.now model.now.fields.now.scope.now named.now }
    ensures { IfOk result (λ numbers. numbers ≡ flat_map (measure_numbers model.now.fields.now.views.now model.now.fields.now.scope.now) names.now) }
{
    let mut numbers = Items::new(alloc);
    for name in names {
        add_measure(model, named, name.as_str(), &mut numbers)?;
    }
    Ok(numbers)
}

fn add_measure(
    model: &ModelFields,
    named: &Named,
    name: &str,
    numbers: &mut Items<u32>,
) -> Result<(), NoMemory>
    requires told { IsModelTold model.now }
    requires named { AreNamed model.now.fields.now.views.now model.now.fields.now.scope.now named.now }
    ensures { IfOk result (λ _. numbers.new ≡ numbers.old ++ measure_numbers model.now.fields.now.views.now model.now.fields.now.scope.now name.now) }
{
    match measure_number(model.fields, named, name)? {
        None => Ok(()),
        Some(number) => numbers.push(number),
    }
}

// The number of a datagroup's name, and 0 where there is none.
fn datagroup_number(datagroups: &[Text], name: &Option<Text>) -> Result<u32, NoMemory>
    ensures { IfOk result (λ n. n ≡ datagroup_number datagroups.now name.now) }
{
    match name {
        None => Ok(0),
        Some(name) => as_number(position_of(datagroups, name.as_str())),
    }
}

pub(crate) fn position_of(datagroups: &[Text], name: &str) -> Option<usize>
    ensures { result ≡ position (λ datagroup. is_same_text datagroup name.now) datagroups.now }
{
    datagroups
        .iter()
        .position(|datagroup| datagroup.as_str() == name)
}
