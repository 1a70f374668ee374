ghost use Rattle.std.specs.Prelude.{◌≡◌, ◌++◌, IfOk, map};
ghost use Rattle.std.specs.List.{list_any};
ghost use Rattle.lk_fields.specs.Rows.{is_lacking, names_of, no_row, number_named, number_of, numbers_in, row_at, row_by, row_with};

use crate::places::is_same_place;
use crate::references::{field_at, named_by, referred};
use crate::scope::{Found, Place, Scope};
use lk_objects::{DeclaredField, DeclaredView};
use lk_val::{Items, NoMemory};
use std::alloc::Global;

/// How a field is marked by what it names.
#[derive(Clone, Copy, PartialEq, Eq)]
pub enum Rule {
    /// It is lost where some name means no field or a lost one.
    Loses,
    /// Its references come to an end where those of all that it refers to do.
    Ends,
}

/// What a field names, by the numbers of fields among all of a scope, and whether it lacks one of its names.
#[derive(Drop)]
pub struct Row {
    pub lacks: bool,
    pub names: Items<usize>,
}

/// The rows of the fields at some places, which are all of a scope. (lookd)
pub fn rows_of(
    alloc: Global,
    rule: Rule,
    views: &[DeclaredView],
    scope: &Scope,
    all: &[Place],
) -> Result<Items<Row>, NoMemory>
    ensures { IfOk result (λ rows. rows ≡ map (row_at rule views.now scope.now all.now) all.now) }
{
    let mut rows = Items::new(alloc);
    for place in all {
        rows.push(row_at(alloc, rule, views, scope, all, *place)?)?;
    }
    Ok(rows)
}

fn row_at(
    alloc: Global,
    rule: Rule,
    views: &[DeclaredView],
    scope: &Scope,
    all: &[Place],
    place: Place,
) -> Result<Row, NoMemory>
    ensures { IfOk result (λ row. row ≡ row_at rule views.now scope.now all.now place) }
{
    match field_at(views, scope, place) {
        None => Ok(no_row(alloc, rule)),
        Some(field) => {
            let names = names_of(alloc, rule, views, scope, place.part, field)?;
            row_with(alloc, rule, all, names.as_slice())
        }
    }
}

fn no_row(alloc: Global, rule: Rule) -> Row
    ensures { result ≡ no_row rule }
{
    Row {
        lacks: rule == Rule::Loses,
        names: Items::new(alloc),
    }
}

// What counts of a field: all that its text names, or what it refers to.
fn names_of(
    alloc: Global,
    rule: Rule,
    views: &[DeclaredView],
    scope: &Scope,
    part: u32,
    field: &DeclaredField,
) -> Result<Items<Option<Found>>, NoMemory>
    ensures { IfOk result (λ names. names ≡ names_of rule views.now scope.now part field.now) }
{
    match rule {
        Rule::Loses => named_by(alloc, views, scope, part, field),
        Rule::Ends => referred(alloc, views, scope, part, field),
    }
}

fn row_with(
    alloc: Global,
    rule: Rule,
    all: &[Place],
    found: &[Option<Found>],
) -> Result<Row, NoMemory>
    ensures { IfOk result (λ row. row ≡ row_with rule all.now found.now) }
{
    Ok(Row {
        lacks: lacks_one(rule, all, found),
        names: numbers_in(alloc, all, found)?,
    })
}

fn lacks_one(rule: Rule, all: &[Place], found: &[Option<Found>]) -> bool
    ensures { result ≡ list_any (is_lacking rule all.now) found.now }
{
    for name in found {
        if is_lacking(rule, all, name) {
            return true;
        }
    }
    false
}

fn is_lacking(rule: Rule, all: &[Place], name: &Option<Found>) -> bool
    ensures { result ≡ is_lacking rule all.now name.now }
{
    match (rule, name) {
        (Rule::Loses, name) => name.is_none(),
        (Rule::Ends, None) => false,
        (Rule::Ends, Some(found)) => number_of(all, found.place).is_none(),
    }
}

fn numbers_in(
    alloc: Global,
    all: &[Place],
    found: &[Option<Found>],
) -> Result<Items<usize>, NoMemory>
    ensures { IfOk result (λ numbers. numbers ≡ numbers_in all.now found.now) }
{
    let mut numbers = Items::new(alloc);
    for name in found {
        if let Some(number) = number_named(all, name) {
            numbers.push(number)?;
        }
    }
    Ok(numbers)
}

fn number_named(all: &[Place], name: &Option<Found>) -> Option<usize>
    ensures { result ≡ number_named all.now name.now }
{
    match name {
        None => None,
        Some(found) => number_of(all, found.place),
    }
}

/// The number of a place among all places.
pub fn number_of(all: &[Place], place: Place) -> Option<usize>
    ensures { result ≡ number_of all.now place }
{
    all.iter().position(|other| is_same_place(place, *other))
}
