ghost use Rattle.std.specs.Prelude.{◌≡◌, ◌≤◌, ◌++◌, ◌∷◌, [], Some, IfOk, filter, flat_map, length, map};
ghost use Rattle.std.specs.List.{position_or_len};
ghost use Rattle.lk_fields.specs.Existing.{exists};
ghost use Rattle.lk_fields.specs.Scopes.{framed_name};
ghost use Rattle.lk_resolved.specs.Names.{by_name, dimension_made, dimensions_at, dimensions_with, existing, frame_dimension, goes_before, is_group_at, measures_at, measures_with, put_in};
ghost use Rattle.lk_scope.specs.Told.{IsTold};

use lk_fields::{Found, Place, Scope, Sort, field_at, frame_name, has_sort};
use lk_objects::{DeclaredField, DeclaredView, FieldSort};
use lk_scope::{ScopeFields, full_name, part_name, places_by_name};
use lk_types::Frame;
use lk_val::{Items, NoMemory, Text};
use std::alloc::Global;

// A dimension by its full name, and the declared field that makes it.
#[derive(Drop)]
pub(crate) struct NamedDimension {
    pub(crate) name: Text,
    pub(crate) found: Found,
}

// A measure by its full name.
#[derive(Drop)]
pub(crate) struct NamedMeasure {
    pub(crate) name: Text,
    pub(crate) place: Place,
}

// The dimensions, measures and dimension groups of an explore, by name.
#[derive(Drop)]
pub(crate) struct Named {
    pub(crate) dimensions: Items<NamedDimension>,
    pub(crate) measures: Items<NamedMeasure>,
    pub(crate) groups: Items<Place>,
}

impl Named {
    ghost use Rattle.std.specs.Prelude.{IfOk};
    ghost use Rattle.lk_scope.specs.Told.{IsTold};
    ghost use Rattle.lk_resolved.specs.Numbers.{AreNamed};

    // All of them.
    pub(crate) fn of(alloc: Global, fields: &ScopeFields) -> Result<Named, NoMemory>
        requires told { IsTold fields.now }
        ensures { IfOk result (AreNamed fields.now.views.now fields.now.scope.now) }
    {
        let places = existing(alloc, fields)?;
        Ok(Named {
            dimensions: dimensions(alloc, fields.views, fields.scope, places.as_slice())?,
            measures: measures(alloc, fields.views, fields.scope, places.as_slice())?,
            groups: groups(alloc, fields.views, fields.scope, places.as_slice())?,
        })
    }
}

// The declared fields that are fields of the explore, by the names of their parts and then by their own.
fn existing(alloc: Global, fields: &ScopeFields) -> Result<Items<Place>, NoMemory>
    requires told { IsTold fields.now }
    ensures { IfOk result (λ places. places ≡ existing fields.now.views.now fields.now.scope.now) }
{
    let all = places_by_name(alloc, fields.views, fields.scope)?;
    existing_among(alloc, fields, all.as_slice())
}

fn existing_among(
    alloc: Global,
    fields: &ScopeFields,
    all: &[Place],
) -> Result<Items<Place>, NoMemory>
    requires told { IsTold fields.now }
    ensures { IfOk result (λ places. places ≡ filter (exists fields.now.views.now fields.now.scope.now) all.now) }
{
    let mut places = Items::new(alloc);
    for place in all {
        if fields.exists(*place) {
            places.push(*place)?;
        }
    }
    Ok(places)
}

// The dimensions by their full names.
fn dimensions(
    alloc: Global,
    views: &[DeclaredView],
    scope: &Scope,
    places: &[Place],
) -> Result<Items<NamedDimension>, NoMemory>
    ensures { IfOk result (λ named. named ≡ by_name (flat_map (dimensions_at views.now scope.now) places.now)) }
{
    let made = dimensions_made(alloc, views, scope, places)?;
    by_name(alloc, made)
}

fn dimensions_made(
    alloc: Global,
    views: &[DeclaredView],
    scope: &Scope,
    places: &[Place],
) -> Result<Items<NamedDimension>, NoMemory>
    ensures { IfOk result (λ made. made ≡ flat_map (dimensions_at views.now scope.now) places.now) }
{
    let mut made = Items::new(alloc);
    for place in places {
        add_dimensions(alloc, views, scope, *place, &mut made)?;
    }
    Ok(made)
}

fn add_dimensions(
    alloc: Global,
    views: &[DeclaredView],
    scope: &Scope,
    place: Place,
    dimensions: &mut Items<NamedDimension>,
) -> Result<(), NoMemory>
    ensures { IfOk result (λ _. dimensions.new ≡ dimensions.old ++ dimensions_at views.now scope.now place) }
{
    match field_at(views, scope, place) {
        None => Ok(()),
        Some(field) => add_made(alloc, scope, place, field, dimensions),
    }
}

fn add_made(
    alloc: Global,
    scope: &Scope,
    place: Place,
    field: &DeclaredField,
    dimensions: &mut Items<NamedDimension>,
) -> Result<(), NoMemory>
    ensures { IfOk result (λ _. dimensions.new ≡ dimensions.old ++ dimensions_with scope.now place (Some field.now)) }
{
    let part = part_name(scope, place.part as usize);
    let name = field.name.as_str();
    match field.sort {
        FieldSort::Measure(_) => Ok(()),
        FieldSort::Dimension(_) => add_dimension(alloc, part, name, place, None, dimensions),
        FieldSort::Group => add_frames(
            alloc,
            part,
            name,
            place,
            field.frames.as_slice(),
            dimensions,
        ),
    }
}

fn add_dimension(
    alloc: Global,
    part: &str,
    name: &str,
    place: Place,
    frame: Option<Frame>,
    dimensions: &mut Items<NamedDimension>,
) -> Result<(), NoMemory>
    ensures { IfOk result (λ _. dimensions.new ≡ dimensions.old ++ dimension_made part.now place (name.now, frame) ∷ []) }
{
    let name = full_name(alloc, part, name)?;
    let found = Found { place, frame };
    dimensions.push(NamedDimension { name, found })
}

fn add_frames(
    alloc: Global,
    part: &str,
    group: &str,
    place: Place,
    frames: &[Frame],
    dimensions: &mut Items<NamedDimension>,
) -> Result<(), NoMemory>
    ensures { IfOk result (λ _. dimensions.new ≡ dimensions.old ++ map (frame_dimension part.now place group.now) frames.now) }
{
    for frame in frames {
        let name = framed_name(alloc, group, *frame)?;
        add_dimension(alloc, part, name.as_str(), place, Some(*frame), dimensions)?;
    }
    Ok(())
}

// The name that a dimension group makes for a timeframe.
fn framed_name(alloc: Global, group: &str, frame: Frame) -> Result<Text, NoMemory>
    ensures { IfOk result (λ name. name ≡ framed_name group.now frame) }
{
    let frame = frame_name(frame);
    Ok(Text::from_string(format!(in alloc; "{group}_{frame}")?))
}

// Dimensions in the order of their names.
fn by_name(alloc: Global, made: Items<NamedDimension>) -> Result<Items<NamedDimension>, NoMemory>
    ensures { IfOk result (λ named. named ≡ by_name made) }
{
    let mut named = Vec::new(alloc);
    for dimension in made.into_vec() {
        put_in(&mut named, dimension)?;
    }
    Ok(Items::from_vec(named))
}

fn put_in(named: &mut Vec<NamedDimension>, dimension: NamedDimension) -> Result<(), NoMemory>
    ensures { IfOk result (λ _. named.new.items ≡ put_in named.old.items dimension) }
{
    let place = place_of(named.as_slice(), &dimension);
    named.insert(place, dimension)?;
    Ok(())
}

// The place of the first that the dimension goes before, and else the end.
fn place_of(named: &[NamedDimension], dimension: &NamedDimension) -> usize
    ensures first { result ≡ position_or_len (goes_before dimension.now) named.now }
    ensures within { result ≤ length named.now }
{
    for place in 0..named.len() {
        if goes_before(dimension, &named[place]) {
            return place;
        }
    }
    named.len()
}

fn goes_before(a: &NamedDimension, b: &NamedDimension) -> bool
    ensures { result ≡ goes_before a.now b.now }
{
    a.name.as_str() < b.name.as_str()
}

// The measures by their full names, which the places have in order.
fn measures(
    alloc: Global,
    views: &[DeclaredView],
    scope: &Scope,
    places: &[Place],
) -> Result<Items<NamedMeasure>, NoMemory>
    ensures { IfOk result (λ named. named ≡ flat_map (measures_at views.now scope.now) places.now) }
{
    let mut named = Items::new(alloc);
    for place in places {
        add_measure(alloc, views, scope, *place, &mut named)?;
    }
    Ok(named)
}

fn add_measure(
    alloc: Global,
    views: &[DeclaredView],
    scope: &Scope,
    place: Place,
    measures: &mut Items<NamedMeasure>,
) -> Result<(), NoMemory>
    ensures { IfOk result (λ _. measures.new ≡ measures.old ++ measures_at views.now scope.now place) }
{
    match field_at(views, scope, place) {
        None => Ok(()),
        Some(field) => add_field(alloc, scope, place, field, measures),
    }
}

fn add_field(
    alloc: Global,
    scope: &Scope,
    place: Place,
    field: &DeclaredField,
    measures: &mut Items<NamedMeasure>,
) -> Result<(), NoMemory>
    ensures { IfOk result (λ _. measures.new ≡ measures.old ++ measures_with scope.now place (Some field.now)) }
{
    if !has_sort(Sort::Measure, field.sort) {
        return Ok(());
    }
    let part = part_name(scope, place.part as usize);
    let name = full_name(alloc, part, field.name.as_str())?;
    measures.push(NamedMeasure { name, place })
}

// The dimension groups among some places.
fn groups(
    alloc: Global,
    views: &[DeclaredView],
    scope: &Scope,
    places: &[Place],
) -> Result<Items<Place>, NoMemory>
    ensures { IfOk result (λ groups. groups ≡ filter (is_group_at views.now scope.now) places.now) }
{
    let mut groups = Items::new(alloc);
    for place in places {
        if is_group_at(views, scope, *place) {
            groups.push(*place)?;
        }
    }
    Ok(groups)
}

fn is_group_at(views: &[DeclaredView], scope: &Scope, place: Place) -> bool
    ensures { result ≡ is_group_at views.now scope.now place }
{
    match field_at(views, scope, place) {
        None => false,
        Some(field) => field.sort == FieldSort::Group,
    }
}
