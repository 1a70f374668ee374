ghost use Rattle.std.specs.Prelude.{◌≡◌, ◌∷◌, [], IfOk};
ghost use Rattle.std.specs.List.{flat_map, fold, list_any};
ghost use Rattle.lk_val.specs.Least.{is_in};
ghost use Rattle.lk_fields.specs.Existing.{is_same_place};
ghost use Rattle.lk_formulas.specs.Formulas.{field_named};
ghost use Rattle.lk_scope.specs.Components.{components, components_within, is_over_at, is_over_measures, measure_meant, over, over_code, place_found, put_behind, replaced};

use lk_fields::{Found, Place, Scope, Sort, Writer, all_places, field_at, found_in};
use lk_objects::{Code, DeclaredView, Reference};
use lk_val::{Items, NoMemory};
use std::alloc::Global;

/// The measures of which a measure is made, each once in the order of first standing: one of type number is replaced by
/// those that it is over, from left to right, again until none is left. (Looker, LookML reference: measure types, number; lookd)
pub fn components(
    alloc: Global,
    views: &[DeclaredView],
    scope: &Scope,
    place: Place,
) -> Result<Items<Place>, NoMemory>
    ensures { IfOk result (λ places. places ≡ components views.now scope.now place) }
{
    let most = all_places(alloc, views, scope)?.len();
    let mut places = Items::new(alloc);
    places.push(place)?;
    components_within(alloc, views, scope, most, places)
}

fn components_within(
    alloc: Global,
    views: &[DeclaredView],
    scope: &Scope,
    most: usize,
    places: Items<Place>,
) -> Result<Items<Place>, NoMemory>
    ensures { IfOk result (λ made. made ≡ components_within views.now scope.now most places) }
{
    let mut places = places;
    for _round in 0..most {
        if !has_number(views, scope, places.as_slice()) {
            return Ok(places);
        }
        places = replaced(alloc, views, scope, places.as_slice())?;
    }
    Ok(places)
}

fn has_number(views: &[DeclaredView], scope: &Scope, places: &[Place]) -> bool
    ensures { result ≡ list_any (is_over_at views.now scope.now) places.now }
{
    for place in places {
        if is_over_at(views, scope, *place) {
            return true;
        }
    }
    false
}

fn is_over_at(views: &[DeclaredView], scope: &Scope, place: Place) -> bool
    ensures { result ≡ is_over_at views.now scope.now place }
{
    match field_at(views, scope, place) {
        None => false,
        Some(field) => is_over_measures(&field.sql),
    }
}

fn is_over_measures(code: &Code) -> bool
    ensures { result ≡ is_over_measures code.now }
{
    match code {
        Code::Number(_) => true,
        _ => false,
    }
}

// Each measure of type number replaced by those that it is over.
fn replaced(
    alloc: Global,
    views: &[DeclaredView],
    scope: &Scope,
    places: &[Place],
) -> Result<Items<Place>, NoMemory>
    ensures { IfOk result (λ made. made ≡ replaced views.now scope.now places.now) }
{
    let mut made = Items::new(alloc);
    for place in places {
        add_over(views, scope, *place, &mut made)?;
    }
    Ok(made)
}

fn add_over(
    views: &[DeclaredView],
    scope: &Scope,
    place: Place,
    made: &mut Items<Place>,
) -> Result<(), NoMemory>
    ensures { IfOk result (λ _. made.new ≡ fold put_behind made.old (over views.now scope.now place)) }
{
    match field_at(views, scope, place) {
        None => put_behind(made, place),
        Some(field) => add_over_code(views, scope, place, &field.sql, made),
    }
}

fn add_over_code(
    views: &[DeclaredView],
    scope: &Scope,
    place: Place,
    code: &Code,
    made: &mut Items<Place>,
) -> Result<(), NoMemory>
    ensures { IfOk result (λ _. made.new ≡ fold put_behind made.old (over_code views.now scope.now place code.now)) }
{
    match code {
        Code::Number(written) => {
            add_meant(
                views,
                scope,
                place.part,
                written.references.as_slice(),
                made,
            )
        }
        _ => put_behind(made, place),
    }
}

fn add_meant(
    views: &[DeclaredView],
    scope: &Scope,
    part: u32,
    references: &[Reference],
    made: &mut Items<Place>,
) -> Result<(), NoMemory>
    ensures { IfOk result (λ _. made.new
        ≡ fold put_behind made.old (flat_map (measure_meant views.now scope.now part) references.now)) }
{
    for reference in references {
        add_found(measure_named(views, scope, part, reference)?, made)?;
    }
    Ok(())
}

// The measure that a reference names in the text of a measure of a part.
fn measure_named(
    views: &[DeclaredView],
    scope: &Scope,
    part: u32,
    reference: &Reference,
) -> Result<Option<Found>, NoMemory>
    ensures { IfOk result (λ found. found ≡ field_named views.now scope.now (Writer.Field part) Sort.Measure reference.now) }
{
    let writer = Writer::Field(part);
    match reference {
        Reference::Own(name) => found_in(views, scope, writer, None, name.as_str(), Sort::Measure),
        Reference::Of(view, name) => {
            let view = Some(view.as_str());
            found_in(views, scope, writer, view, name.as_str(), Sort::Measure)
        }
        Reference::Column(_) => Ok(None),
    }
}

fn add_found(found: Option<Found>, made: &mut Items<Place>) -> Result<(), NoMemory>
    ensures { IfOk result (λ _. made.new ≡ fold put_behind made.old (place_found found)) }
{
    match found {
        None => Ok(()),
        Some(found) => put_behind(made, found.place),
    }
}

fn put_behind(places: &mut Items<Place>, place: Place) -> Result<(), NoMemory>
    ensures { IfOk result (λ _. places.new ≡ put_behind places.old place) }
{
    if is_among(place, places.as_slice()) {
        Ok(())
    } else {
        places.push(place)?;
        Ok(())
    }
}

fn is_among(place: Place, places: &[Place]) -> bool
    ensures { result ≡ is_in is_same_place place places.now }
{
    for other in places {
        if place.part == other.part && place.field == other.field {
            return true;
        }
    }
    false
}
