ghost use Rattle.std.specs.Prelude.{◌≡◌, ◌++◌, IfOk, map, option_map};
ghost use Rattle.lk_scope.specs.ExploreNames.{full_name_of};
ghost use Rattle.lk_scope.specs.Scopes.{alone, explore_named, full_name, part_name, part_of, part_of_join, scope_of, view_number};

use lk_fields::{Found, Scope, ScopePart, split_name};
use lk_objects::{DeclaredExplore, DeclaredJoin, DeclaredView};
use lk_val::{Items, NoMemory, Text};
use std::alloc::Global;

/// The number of the view of a name, if there is one. Numbers past 32 bits want memory.
pub fn view_number(views: &[DeclaredView], name: &Option<Text>) -> Result<Option<u32>, NoMemory>
    ensures { IfOk result (λ number. number ≡ view_number views.now name.now) }
{
    match name {
        None => Ok(None),
        Some(name) => number_of(place_of_view(views, name)),
    }
}

fn place_of_view(views: &[DeclaredView], name: &Text) -> Option<usize>
    ensures { result ≡ view_number views.now (Some name.now) }
{
    views.iter().position(|view| view.name == *name)
}

fn number_of(place: Option<usize>) -> Result<Option<u32>, NoMemory>
    ensures { IfOk result (λ number. number ≡ place) }
{
    match place {
        None => Ok(None),
        Some(place) => match u32::try_from(place) {
            Ok(number) => Ok(Some(number)),
            Err(_) => Err(NoMemory),
        },
    }
}

/// The scope of an explore: its base view under the explore's name, and the joined views under the names of the joins.
/// (Looker, LookML reference: from, join)
pub fn scope_of(
    alloc: Global,
    views: &[DeclaredView],
    explore: &DeclaredExplore,
) -> Result<Scope, NoMemory>
    ensures { IfOk result (λ scope. scope ≡ scope_of views.now explore.now) }
{
    let mut parts = Items::new(alloc);
    parts.push(part_of(alloc, views, &explore.name, &explore.base)?)?;
    add_joined(alloc, views, explore.joins.as_slice(), &mut parts)?;
    Ok(Scope { parts })
}

fn add_joined(
    alloc: Global,
    views: &[DeclaredView],
    joins: &[DeclaredJoin],
    parts: &mut Items<ScopePart>,
) -> Result<(), NoMemory>
    ensures { IfOk result (λ _. parts.new ≡ parts.old ++ map (part_of_join views.now) joins.now) }
{
    for join in joins {
        parts.push(part_of(alloc, views, &join.name, &join.view)?)?;
    }
    Ok(())
}

fn part_of(
    alloc: Global,
    views: &[DeclaredView],
    name: &Text,
    view: &Option<Text>,
) -> Result<ScopePart, NoMemory>
    ensures { IfOk result (λ part. part ≡ part_of views.now name.now view.now) }
{
    Ok(ScopePart {
        name: name.copy(alloc)?,
        view: view_number(views, view)?,
    })
}

/// The scope of one view, of this number among all, by itself: another view's name means nothing in it.
pub fn alone(alloc: Global, number: u32, view: &DeclaredView) -> Result<Scope, NoMemory>
    ensures { IfOk result (λ scope. scope ≡ alone number view.now) }
{
    let mut parts = Items::new(alloc);
    let name = view.name.copy(alloc)?;
    parts.push(ScopePart {
        name,
        view: Some(number),
    })?;
    Ok(Scope { parts })
}

/// The explore of a name.
pub fn explore_named<'a>(explores: &'a [DeclaredExplore], name: &str) -> Option<&'a DeclaredExplore>
    ensures { option_map (λ x. x.now) result ≡ explore_named explores.now name.now }
{
    explores
        .iter()
        .find(|explore| explore.name.as_str() == name)
}

/// The name of a part in the explore; empty where there is no such part.
pub fn part_name(scope: &Scope, part: usize) -> &str
    ensures { result.now ≡ part_name scope.now part }
{
    match scope.parts.as_slice().get(part) {
        None => "",
        Some(part) => part.name.as_str(),
    }
}

/// The name `part.field`.
pub fn full_name(alloc: Global, part: &str, name: &str) -> Result<Text, NoMemory>
    ensures { IfOk result (λ full. full ≡ full_name part.now name.now) }
{
    Ok(Text::from_string(format!(in alloc; "{part}.{name}")?))
}

/// The name `part.field` of what a whole name means.
pub fn full_name_of(
    alloc: Global,
    scope: &Scope,
    found: Found,
    name: &str,
) -> Result<Text, NoMemory>
    ensures { IfOk result (λ full. full ≡ full_name_of scope.now found name.now) }
{
    let (_, field) = split_name(name);
    full_name(alloc, part_name(scope, found.place.part as usize), field)
}
