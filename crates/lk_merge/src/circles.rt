ghost use Rattle.std.specs.Prelude.{◌≡◌, Some, true, false, IfOk, IfSome, find};
ghost use Rattle.lk_merge.specs.Objects.{bases_of, declared_names};
ghost use Rattle.lk_merge.specs.MergeFaults.{is_on_cycle};
ghost use Rattle.lk_merge.specs.Ranks.{do_keep_down, is_at_most, keeps_down, leads};

use crate::by_name::Declared;
use crate::contributors::bases_of;
use crate::paths::{path_back, reach_counts};
use crate::ranks::{base_places, descends, rank_in};
use lk_overlay::Kind;
use lk_val::{Items, NoMemory, Text, is_among};
use std::alloc::Global;

/// The least name that stands on a cycle of extensions, where numbers and a path show it, and none where they don't.
pub fn shown_cycle<'a>(
    alloc: Global,
    all: &Declared<'_>,
    kind: Kind,
    names: &'a [Text],
) -> Result<Option<&'a Text>, NoMemory>
    requires { names.now ≡ declared_names all.now.them.now kind }
    ensures { IfOk result (λ found. IfSome found (λ name. find (is_on_cycle all.now.them.now kind) names.now ≡ Some name.now)) }
{
    let places = base_places(alloc, all, kind, names)?;
    let numbers = reach_counts(alloc, places.as_slice())?;
    if !do_keep_down(alloc, all, kind, names, numbers.as_slice())? {
        return Ok(None);
    }
    for name in names {
        if !falls(alloc, all, kind, names, numbers.as_slice(), name)? {
            if turns(alloc, all, kind, names, places.as_slice(), name)? {
                return Ok(Some(name));
            }
            return Ok(None);
        }
    }
    Ok(None)
}

// Whether no base's number is above its name's.
fn do_keep_down(
    alloc: Global,
    all: &Declared<'_>,
    kind: Kind,
    names: &[Text],
    numbers: &[usize],
) -> Result<bool, NoMemory>
    ensures { IfOk result (λ so. so ≡ do_keep_down all.now.them.now kind names.now numbers.now names.now) }
{
    for name in names {
        if !keeps_down(
            names,
            numbers,
            name,
            bases_of(alloc, all, kind, name)?.as_slice(),
        ) {
            return Ok(false);
        }
    }
    Ok(true)
}

fn keeps_down(names: &[Text], numbers: &[usize], name: &Text, bases: &[Text]) -> bool
    ensures { result ≡ keeps_down names.now numbers.now name.now bases.now }
{
    let number = rank_in(names, numbers, name);
    for base in bases {
        if !is_at_most(rank_in(names, numbers, base), number) {
            return false;
        }
    }
    true
}

fn is_at_most(number: Option<usize>, other: Option<usize>) -> bool
    ensures { result ≡ is_at_most number other }
{
    match number {
        None => false,
        Some(number) => match other {
            None => false,
            Some(other) => number <= other,
        },
    }
}

// Whether the name's number is above those of its bases; then it stands on no cycle.
#[tactic(auto, using(crate::proofs::CircleLaws::not_on_cycle))]
fn falls(
    alloc: Global,
    all: &Declared<'_>,
    kind: Kind,
    names: &[Text],
    numbers: &[usize],
    name: &Text,
) -> Result<bool, NoMemory>
    requires names { names.now ≡ declared_names all.now.them.now kind }
    requires down { do_keep_down all.now.them.now kind names.now numbers.now names.now ≡ true }
    ensures { IfOk result (λ so. so ≡ true → is_on_cycle all.now.them.now kind name.now ≡ false) }
{
    if !is_among(name, names) {
        return Ok(false);
    }
    Ok(descends(
        names,
        numbers,
        name,
        bases_of(alloc, all, kind, name)?.as_slice(),
    ))
}

// Whether a path of bases leads from the name back to it; then it stands on a cycle.
#[tactic(auto, using(crate::proofs::CircleLaws::on_cycle))]
fn turns(
    alloc: Global,
    all: &Declared<'_>,
    kind: Kind,
    names: &[Text],
    places: &[Vec<usize>],
    name: &Text,
) -> Result<bool, NoMemory>
    requires { names.now ≡ declared_names all.now.them.now kind }
    ensures { IfOk result (λ so. so ≡ true → is_on_cycle all.now.them.now kind name.now ≡ true) }
{
    if !is_among(name, names) {
        return Ok(false);
    }
    let path = names_back(alloc, names, places, name)?;
    leads(alloc, all, kind, names, path.as_slice(), name, name)
}

fn leads(
    alloc: Global,
    all: &Declared<'_>,
    kind: Kind,
    names: &[Text],
    path: &[Text],
    from: &Text,
    to: &Text,
) -> Result<bool, NoMemory>
    requires { names.now ≡ declared_names all.now.them.now kind }
    ensures { IfOk result (λ so. so ≡ leads all.now.them.now kind path.now from.now to.now) }
{
    let mut at = from;
    for step in path {
        if !is_among(step, bases_of(alloc, all, kind, at)?.as_slice()) {
            return Ok(false);
        }
        if !is_among(step, names) {
            return Ok(false);
        }
        at = step;
    }
    Ok(is_among(to, bases_of(alloc, all, kind, at)?.as_slice()))
}

// The names on a way back to a name.
fn names_back(
    alloc: Global,
    names: &[Text],
    places: &[Vec<usize>],
    name: &Text,
) -> Result<Items<Text>, NoMemory> {
    let mut path = Items::new(alloc);
    for start in 0..names.len() {
        if names[start] == *name {
            for place in path_back(alloc, places, start)?.as_slice() {
                if *place < names.len() {
                    path.push(names[*place].copy(alloc)?)?;
                }
            }
            return Ok(path);
        }
    }
    Ok(path)
}
