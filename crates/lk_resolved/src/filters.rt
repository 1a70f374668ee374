ghost use Rattle.std.specs.Prelude.{◌≡◌, ◌++◌, IfOk, flat_map, option_map};
ghost use Rattle.lk_resolved.specs.Filters.{filter_if, filter_named, listed, filter_of_part, filter_on, filters_named, filters_of_part, number_of_found, numbers_of_dimensions, dimension_numbers};
ghost use Rattle.lk_scope.specs.Readings.{reading_of};
ghost use Rattle.lk_scope.specs.Told.{IsTold};

use crate::names::Named;
use lk_fields::{Found, Sort, Writer, found_by};
use lk_objects::{FilterText, ReadFilter};
use lk_scope::{ScopeFields, full_name_of, reading_of};
use lk_types::Filter;
use lk_val::{Copied, Items, NoMemory, Text};
use std::alloc::Global;

// The filters in the explore's own text, by the numbers of their dimensions.
pub(crate) fn filters_named(
    alloc: Global,
    fields: &ScopeFields,
    named: &Named,
    filters: &[FilterText],
) -> Result<Items<(u32, Filter)>, NoMemory>
    requires told { IsTold fields.now }
    ensures { IfOk result (λ read. read ≡ filters_named fields.now.views.now fields.now.scope.now named.now.dimensions filters.now) }
{
    let mut read = Items::new(alloc);
    for filter in filters {
        add_named(alloc, fields, named, filter, &mut read)?;
    }
    Ok(read)
}

fn add_named(
    alloc: Global,
    fields: &ScopeFields,
    named: &Named,
    filter: &FilterText,
    read: &mut Items<(u32, Filter)>,
) -> Result<(), NoMemory>
    requires told { IsTold fields.now }
    ensures { IfOk result (λ _. read.new ≡ read.old ++ filter_named fields.now.views.now fields.now.scope.now named.now.dimensions filter.now) }
{
    let found = fields.dimension_named(filter.name.as_str())?;
    add_on(alloc, fields, named, filter, found, read)
}

// The filters of a measure of a part.
pub(crate) fn filters_of_part(
    alloc: Global,
    fields: &ScopeFields,
    named: &Named,
    part: u32,
    filters: &[FilterText],
) -> Result<Items<(u32, Filter)>, NoMemory>
    ensures { IfOk result (λ read. read ≡ filters_of_part fields.now.views.now fields.now.scope.now named.now.dimensions part filters.now) }
{
    let mut read = Items::new(alloc);
    for filter in filters {
        add_of_part(alloc, fields, named, part, filter, &mut read)?;
    }
    Ok(read)
}

fn add_of_part(
    alloc: Global,
    fields: &ScopeFields,
    named: &Named,
    part: u32,
    filter: &FilterText,
    read: &mut Items<(u32, Filter)>,
) -> Result<(), NoMemory>
    ensures { IfOk result (λ _. read.new ≡ read.old ++ filter_of_part fields.now.views.now fields.now.scope.now named.now.dimensions part filter.now) }
{
    let writer = Writer::Field(part);
    let name = filter.name.as_str();
    let found = found_by(fields.views, fields.scope, writer, name, Sort::Dimension)?;
    add_on(alloc, fields, named, filter, found, read)
}

fn add_on(
    alloc: Global,
    fields: &ScopeFields,
    named: &Named,
    filter: &FilterText,
    found: Option<Found>,
    read: &mut Items<(u32, Filter)>,
) -> Result<(), NoMemory>
    ensures { IfOk result (λ _. read.new ≡ read.old ++ filter_on fields.now.views.now fields.now.scope.now named.now.dimensions filter.now found) }
{
    match found {
        None => Ok(()),
        Some(found) => add_found(alloc, fields, named, filter, found, read),
    }
}

fn add_found(
    alloc: Global,
    fields: &ScopeFields,
    named: &Named,
    filter: &FilterText,
    found: Found,
    read: &mut Items<(u32, Filter)>,
) -> Result<(), NoMemory>
    ensures { IfOk result (λ _. read.new ≡ read.old ++ filter_if (number_of_found fields.now.views.now fields.now.scope.now named.now.dimensions found filter.now.name) (reading_of fields.now.views.now fields.now.scope.now filter.now found)) }
{
    let number = number_of_found(alloc, fields, named, found, filter.name.as_str())?;
    let reading = reading_of(fields.views, fields.scope, filter, found);
    add_if(alloc, number, reading, read)
}

fn add_if(
    alloc: Global,
    number: u32,
    reading: Option<&ReadFilter>,
    read: &mut Items<(u32, Filter)>,
) -> Result<(), NoMemory>
    ensures { IfOk result (λ _. read.new ≡ read.old ++ filter_if number (option_map (λ r. r.now) reading.entry)) }
{
    match reading {
        Some(ReadFilter::Read(filter)) => read.push((number, filter.copied(alloc)?)),
        Some(ReadFilter::Syntax(_)) | None => Ok(()),
    }
}

// The number of the dimension that a whole name was found to mean.
fn number_of_found(
    alloc: Global,
    fields: &ScopeFields,
    named: &Named,
    found: Found,
    name: &str,
) -> Result<u32, NoMemory>
    ensures { IfOk result (λ n. n ≡ number_of_found fields.now.views.now fields.now.scope.now named.now.dimensions found name.now) }
{
    let full = full_name_of(alloc, fields.scope, found, name)?;
    named.dimension(full.as_str())
}

// The number of the dimension that a whole name means, if it means one.
pub(crate) fn dimension_number(
    alloc: Global,
    fields: &ScopeFields,
    named: &Named,
    name: &str,
) -> Result<Option<u32>, NoMemory>
    requires told { IsTold fields.now }
    ensures { IfOk result (λ n. listed n ≡ dimension_numbers fields.now.views.now fields.now.scope.now named.now.dimensions name.now) }
{
    match fields.dimension_named(name)? {
        None => Ok(None),
        Some(found) => Ok(Some(number_of_found(alloc, fields, named, found, name)?)),
    }
}

// The numbers of the dimensions that some names mean.
pub(crate) fn numbers_of_dimensions(
    alloc: Global,
    fields: &ScopeFields,
    named: &Named,
    names: &[Text],
) -> Result<Items<u32>, NoMemory>
    requires told { IsTold fields.now }
    ensures { IfOk result (λ numbers. numbers ≡ numbers_of_dimensions fields.now.views.now fields.now.scope.now named.now.dimensions names.now) }
{
    let mut numbers = Items::new(alloc);
    for name in names {
        add_number(alloc, fields, named, name.as_str(), &mut numbers)?;
    }
    Ok(numbers)
}

fn add_number(
    alloc: Global,
    fields: &ScopeFields,
    named: &Named,
    name: &str,
    numbers: &mut Items<u32>,
) -> Result<(), NoMemory>
    requires told { IsTold fields.now }
    ensures { IfOk result (λ _. numbers.new ≡ numbers.old ++ dimension_numbers fields.now.views.now fields.now.scope.now named.now.dimensions name.now) }
{
    match dimension_number(alloc, fields, named, name)? {
        None => Ok(()),
        Some(number) => numbers.push(number),
    }
}
