ghost use Rattle.std.specs.Prelude.{◌≡◌, ◌++◌, IfOk};
ghost use Rattle.lk_fields.specs.Existing.{all_places, is_same_place, places_from};

use crate::references::fields_at;
use crate::scope::{Place, Scope};
use lk_objects::{DeclaredField, DeclaredView};
use lk_val::{Items, NoMemory};
use std::alloc::Global;

/// The places of all declared fields of a scope, part by part. Numbers past 32 bits want memory.
pub fn all_places(
    alloc: Global,
    views: &[DeclaredView],
    scope: &Scope,
) -> Result<Items<Place>, NoMemory>
    ensures { IfOk result (λ places. places ≡ all_places views.now scope.now) }
{
    let mut places = Items::new(alloc);
    let mut part = 0usize;
    for _part in scope.parts.as_slice() {
        add_places(part, fields_at(views, scope, part), &mut places)?;
        part += 1;
    }
    Ok(places)
}

fn add_places(
    part: usize,
    fields: &[DeclaredField],
    places: &mut Items<Place>,
) -> Result<(), NoMemory>
    ensures { IfOk result (λ _. places.new ≡ places.old ++ places_from part 0 fields.now) }
{
    let mut number = 0usize;
    for _field in fields {
        places.push(place_at(part, number)?)?;
        number += 1;
    }
    Ok(())
}

/// The place of a part and a field. Numbers past 32 bits want memory.
pub(crate) fn place_at(part: usize, field: usize) -> Result<Place, NoMemory>
    ensures { IfOk result (λ place. place ≡ record { part = part; field = field }) }
{
    Ok(Place {
        part: number(part)?,
        field: number(field)?,
    })
}

fn number(place: usize) -> Result<u32, NoMemory>
    ensures { IfOk result (λ n. n ≡ place) }
{
    u32::try_from(place).map_err(|_| NoMemory)
}

pub(crate) fn is_same_place(a: Place, b: Place) -> bool
    ensures { result ≡ is_same_place a b }
{
    a.part == b.part && a.field == b.field
}
