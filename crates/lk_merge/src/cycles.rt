ghost use Rattle.std.specs.Prelude.{◌≡◌, ◌∷◌, IfOk, find, option_map, option_and_then};
ghost use Rattle.std.specs.List.{list_any};
ghost use Rattle.lk_val.specs.Texts.{is_same_text};
ghost use Rattle.lk_val.specs.Least.{is_in, grown, grown_times};
ghost use Rattle.lk_merge.specs.Objects.{bases_of, declaration_of, declared_names};
ghost use Rattle.lk_merge.specs.MergeFaults.{reaches, reached, is_on_cycle, cycle_line, extends_itself};

use crate::by_name::Declared;
use crate::circles::shown_cycle;
use crate::contributors::{bases_of, declaration_of};
use crate::faults::fault_at;
use crate::names::declared_names;
use crate::ranks::{do_descend, ranks};
use lk_overlay::Kind;
use lk_val::{FaultLine, Items, NoMemory, Text, is_among};
use std::alloc::Global;

/// The declaration of the least name that stands on a cycle of extensions.
#[tactic(auto, using(crate::proofs::RankLaws::none_extends_itself))]
pub fn find_cycle(
    alloc: Global,
    all: &Declared<'_>,
    kind: Kind,
) -> Result<Option<FaultLine>, NoMemory>
    ensures { IfOk result (λ fault. fault ≡ extends_itself all.now.them.now kind) }
{
    let names = declared_names(alloc, all.as_slice(), kind)?;
    let ranks = ranks(alloc, all, kind, names.as_slice())?;
    if do_descend(alloc, all, kind, names.as_slice(), ranks.as_slice())? {
        return Ok(None);
    }
    match least_on_cycle(alloc, all, kind, names.as_slice())? {
        None => Ok(None),
        Some(name) => match declaration_of(all.as_slice(), kind, name) {
            None => Ok(None),
            Some(d) => Ok(Some(fault_at(alloc, "M3", "", d)?)),
        },
    }
}

fn least_on_cycle<'a>(
    alloc: Global,
    all: &Declared<'_>,
    kind: Kind,
    names: &'a [Text],
) -> Result<Option<&'a Text>, NoMemory>
    requires { names.now ≡ declared_names all.now.them.now kind }
    ensures { IfOk result (λ name. option_map (λ n. n.now) name ≡ find (is_on_cycle all.now.them.now kind) names.now) }
{
    if let Some(name) = shown_cycle(alloc, all, kind, names)? {
        return Ok(Some(name));
    }
    name_on_cycle(alloc, all, kind, names)
}

// The same by the sets themselves, which takes long.
fn name_on_cycle<'a>(
    alloc: Global,
    all: &Declared<'_>,
    kind: Kind,
    names: &'a [Text],
) -> Result<Option<&'a Text>, NoMemory>
    requires { names.now ≡ declared_names all.now.them.now kind }
    ensures { IfOk result (λ name. option_map (λ n. n.now) name ≡ find (is_on_cycle all.now.them.now kind) names.now) }
{
    for name in names {
        if is_among(name, reached(alloc, all, kind, name, names)?.as_slice()) {
            return Ok(Some(name));
        }
    }
    Ok(None)
}

// The objects that an object reaches by extending, round by round.
fn reached(
    alloc: Global,
    all: &Declared<'_>,
    kind: Kind,
    name: &Text,
    names: &[Text],
) -> Result<Items<Text>, NoMemory>
    requires { names.now ≡ declared_names all.now.them.now kind }
    ensures { IfOk result (λ set. set ≡ reached all.now.them.now kind name.now) }
{
    let mut set = Items::new(alloc);
    for round in 0..names.len() {
        set = grown(alloc, all, kind, name, names, set.as_slice())?;
    }
    Ok(set)
}

fn grown(
    alloc: Global,
    all: &Declared<'_>,
    kind: Kind,
    name: &Text,
    names: &[Text],
    set: &[Text],
) -> Result<Items<Text>, NoMemory>
    ensures { IfOk result (λ more. more ≡ grown is_same_text names.now (reaches all.now.them.now kind name.now) set.now) }
{
    let mut more = Items::new(alloc);
    for base in names {
        if is_among(base, set) || reaches(alloc, all, kind, name, set, base)? {
            more.push(base.copy(alloc)?)?;
        }
    }
    Ok(more)
}

fn reaches(
    alloc: Global,
    all: &Declared<'_>,
    kind: Kind,
    name: &Text,
    set: &[Text],
    base: &Text,
) -> Result<bool, NoMemory>
    ensures { IfOk result (λ r. r ≡ reaches all.now.them.now kind name.now set.now base.now) }
{
    if is_among(base, bases_of(alloc, all, kind, name)?.as_slice()) {
        return Ok(true);
    }
    is_base_of_any(alloc, all, kind, set, base)
}

fn is_base_of_any(
    alloc: Global,
    all: &Declared<'_>,
    kind: Kind,
    set: &[Text],
    base: &Text,
) -> Result<bool, NoMemory>
    ensures { IfOk result (λ r.
        r ≡ list_any (λ from. is_in is_same_text base.now (bases_of all.now.them.now kind from)) set.now) }
{
    for from in set {
        if is_among(base, bases_of(alloc, all, kind, from)?.as_slice()) {
            return Ok(true);
        }
    }
    Ok(false)
}
