ghost use Rattle.std.specs.Prelude.{◌≡◌, ◌≤◌, ◌++◌, IfOk, length};
ghost use Rattle.std.specs.List.{flat_map, position_or_len};
ghost use Rattle.lk_fields.specs.Existing.{places_from};
ghost use Rattle.lk_scope.specs.Order.{goes_before, parts_by_name, places_by_name, places_in, put_in};

use crate::scopes::part_name;
use lk_fields::{Place, Scope, fields_at};
use lk_objects::{DeclaredField, DeclaredView};
use lk_val::{Items, NoMemory};
use std::alloc::Global;

/// The places of all declared fields of a scope by name: by the bytes of the parts' names, and then as the views have them,
/// which is by their own. Numbers past 32 bits want memory. (lookd)
pub fn places_by_name(
    alloc: Global,
    views: &[DeclaredView],
    scope: &Scope,
) -> Result<Items<Place>, NoMemory>
    ensures { IfOk result (λ places. places ≡ places_by_name views.now scope.now) }
{
    let parts = parts_by_name(alloc, scope)?;
    places_in_parts(alloc, views, scope, parts.as_slice())
}

fn places_in_parts(
    alloc: Global,
    views: &[DeclaredView],
    scope: &Scope,
    parts: &[usize],
) -> Result<Items<Place>, NoMemory>
    ensures { IfOk result (λ places. places ≡ flat_map (places_in views.now scope.now) parts.now) }
{
    let mut places = Items::new(alloc);
    for part in parts {
        add_places(*part, fields_at(views, scope, *part), &mut places)?;
    }
    Ok(places)
}

fn add_places(
    part: usize,
    fields: &[DeclaredField],
    places: &mut Items<Place>,
) -> Result<(), NoMemory>
    ensures { IfOk result (λ _. places.new ≡ places.old ++ places_from part 0 fields.now) }
{
    let mut number = 0usize;
    for _field in fields {
        places.push(place_at(part, number)?)?;
        number += 1;
    }
    Ok(())
}

// The place of a part and a field. Numbers past 32 bits want memory.
pub(crate) fn place_at(part: usize, field: usize) -> Result<Place, NoMemory>
    ensures { IfOk result (λ place. place ≡ record { part = part; field = field }) }
{
    Ok(Place {
        part: number(part)?,
        field: number(field)?,
    })
}

fn number(place: usize) -> Result<u32, NoMemory>
    ensures { IfOk result (λ n. n ≡ place) }
{
    u32::try_from(place).map_err(|_| NoMemory)
}

/// The numbers of the parts of a scope, by the bytes of their names; those of one name as they are declared.
pub fn parts_by_name(alloc: Global, scope: &Scope) -> Result<Items<usize>, NoMemory>
    ensures { IfOk result (λ parts. parts ≡ parts_by_name scope.now) }
{
    let mut parts = Vec::new(alloc);
    let mut number = 0usize;
    for _part in scope.parts.as_slice() {
        put_in(scope, &mut parts, number)?;
        number += 1;
    }
    Ok(Items::from_vec(parts))
}

fn put_in(scope: &Scope, parts: &mut Vec<usize>, part: usize) -> Result<(), NoMemory>
    ensures { IfOk result (λ _. parts.new.items ≡ put_in scope.now parts.old.items part) }
{
    let place = place_of(scope, parts.as_slice(), part);
    parts.insert(place, part)?;
    Ok(())
}

// The place of the first that the part goes before, and else the end.
fn place_of(scope: &Scope, parts: &[usize], part: usize) -> usize
    ensures first { result ≡ position_or_len (goes_before scope.now part) parts.now }
    ensures within { result ≤ length parts.now }
{
    for place in 0..parts.len() {
        if goes_before(scope, part, parts[place]) {
            return place;
        }
    }
    parts.len()
}

fn goes_before(scope: &Scope, a: usize, b: usize) -> bool
    ensures { result ≡ goes_before scope.now a b }
{
    part_name(scope, a) < part_name(scope, b)
}
