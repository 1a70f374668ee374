ghost use Rattle.std.specs.Prelude.{◌≡◌, ◌<◌, ◌+◌, ◌++◌, ◌&&◌, IfOk, OnOk, length, map, option_map, not};
ghost use Rattle.std.specs.List.{flat_map, filter, list_any};
ghost use Rattle.lk_params.specs.Parameters.{is_named, items_of};
ghost use Rattle.lk_merge.specs.Objects.{may_extend, lists_bases, listed_bases, extends_in, extends_of, kept, handed_on, declares, is_declared, declaration_of, bases_of, handed_within, contributors};
ghost use Rattle.lk_merge.specs.Walking.{handed_at, handed_back, visits, visits_of};
ghost use Rattle.lk_val.specs.Texts.{is_same_text};
ghost use Rattle.lk_params.specs.Picking.{firsts};

use crate::by_name::Declared;
use crate::declaration::Declaration;
use lk_overlay::Kind;
use lk_params::{copy_item, firsts, joined, parameters_of, words};
use lk_read::Item;
use lk_val::{Items, NoMemory, Text};
use std::alloc::Global;

/// Whether an object is declared.
pub fn is_declared(all: &[Declaration], kind: Kind, name: &Text) -> bool
    ensures { result ≡ is_declared all.now kind name.now }
{
    all.iter().any(|d| declares(kind, name, d))
}

/// The declaration of an object.
pub fn declaration_of<'a>(
    all: &'a [Declaration],
    kind: Kind,
    name: &Text,
) -> Option<&'a Declaration>
    ensures { option_map (λ d. d.now) result ≡ declaration_of all.now kind name.now }
{
    for d in all {
        if declares(kind, name, d) {
            return Some(d);
        }
    }
    None
}

fn declares(kind: Kind, name: &Text, d: &Declaration) -> bool
    ensures { result ≡ declares kind name.now d.now }
{
    !d.refines && d.kind == kind && d.name == *name
}

/// The bases of an object, each once, in order.
pub fn bases_of(
    alloc: Global,
    all: &Declared<'_>,
    kind: Kind,
    name: &Text,
) -> Result<Items<Text>, NoMemory>
    ensures { IfOk result (λ bases. bases ≡ bases_of all.now.them.now kind name.now) }
{
    let own = all.own(alloc, kind, name)?;
    bases_among(alloc, own.as_slice())
}

fn bases_among(alloc: Global, own: &[&Declaration]) -> Result<Items<Text>, NoMemory>
    ensures { IfOk result (λ bases.
        bases ≡ firsts is_same_text (flat_map extends_of (map (λ d. d.now) own.now))) }
{
    firsts(alloc, all_bases(alloc, own)?.as_slice())
}

fn all_bases(alloc: Global, own: &[&Declaration]) -> Result<Items<Text>, NoMemory>
    ensures { IfOk result (λ bases. bases ≡ flat_map extends_of (map (λ d. d.now) own.now)) }
{
    let mut bases = Items::new(alloc);
    for d in own {
        bases = joined(bases, extends_of(alloc, d)?)?;
    }
    Ok(bases)
}

/// Whether objects of a kind extend others. A datagroup has no `extends`, `extension` or `final`. (lookd)
pub fn may_extend(kind: Kind) -> bool
    ensures { result ≡ may_extend kind }
{
    match kind {
        Kind::View | Kind::Explore => true,
        Kind::Datagroup => false,
    }
}

/// Whether a parameter of an object lists its bases.
pub fn lists_bases(kind: Kind, item: &Item) -> bool
    ensures { result ≡ lists_bases kind item.now }
{
    may_extend(kind) && item.name.as_str() == "extends"
}

/// The bases that a declaration or a refinement lists, in order.
pub fn extends_of(alloc: Global, d: &Declaration) -> Result<Items<Text>, NoMemory>
    ensures { IfOk result (λ bases. bases ≡ extends_of d.now) }
{
    let mut bases = Items::new(alloc);
    for item in parameters_of(&d.tree) {
        if lists_bases(d.kind, item) {
            bases = joined(bases, listed_bases(alloc, item)?)?;
        }
    }
    Ok(bases)
}

fn listed_bases(alloc: Global, item: &Item) -> Result<Items<Text>, NoMemory>
    ensures { IfOk result (λ bases. bases ≡ listed_bases item.now) }
{
    match words(alloc, &item.value)? {
        Some(names) => Ok(names),
        None => Ok(Items::new(alloc)),
    }
}

/// What a declaration gives to its own object: all but the lists of bases.
pub fn kept(alloc: Global, d: &Declaration) -> Result<Items<Item>, NoMemory>
    ensures { IfOk result (λ items. items ≡ kept d.now) }
{
    let mut items = Items::new(alloc);
    for item in parameters_of(&d.tree) {
        if !lists_bases(d.kind, item) {
            items.push(copy_item(alloc, item)?)?;
        }
    }
    Ok(items)
}

/// What it gives to an object that extends it: neither `extension` nor `final`.
pub fn handed_on(alloc: Global, d: &Declaration) -> Result<Items<Item>, NoMemory>
    ensures { IfOk result (λ items. items ≡ handed_on d.now) }
{
    let mut items = Items::new(alloc);
    let kept = kept(alloc, d)?;
    for item in kept.as_slice() {
        if item.name.as_str() != "extension" && item.name.as_str() != "final" {
            items.push(copy_item(alloc, item)?)?;
        }
    }
    Ok(items)
}

/// The contributors of an object, as their parameters.
pub fn contributors(
    alloc: Global,
    all: &Declared<'_>,
    kind: Kind,
    name: &Text,
) -> Result<Items<Items<Item>>, NoMemory>
    ensures { IfOk result (λ blocks. blocks ≡ contributors all.now.them.now kind name.now) }
{
    let bases = bases_of(alloc, all, kind, name)?;
    let inherited = handed_by_each(alloc, all, kind, bases)?;
    let own = all.own(alloc, kind, name)?;
    joined(inherited, kept_by_each(alloc, own.as_slice())?)
}

/// What some declarations give to their own object.
pub fn kept_by_each(alloc: Global, own: &[&Declaration]) -> Result<Items<Items<Item>>, NoMemory>
    ensures { IfOk result (λ blocks. blocks ≡ map kept (map (λ d. d.now) own.now)) }
{
    let mut blocks = Items::new(alloc);
    for d in own {
        blocks.push(kept(alloc, d)?)?;
    }
    Ok(blocks)
}

/// What some declarations give to an object that extends theirs.
pub fn handed_on_by_each(
    alloc: Global,
    own: &[&Declaration],
) -> Result<Items<Items<Item>>, NoMemory>
    ensures { IfOk result (λ blocks. blocks ≡ map handed_on (map (λ d. d.now) own.now)) }
{
    let mut blocks = Items::new(alloc);
    for d in own {
        blocks.push(handed_on(alloc, d)?)?;
    }
    Ok(blocks)
}

// What each of some objects gives to those that extend it.
fn handed_by_each(
    alloc: Global,
    all: &Declared<'_>,
    kind: Kind,
    names: Items<Text>,
) -> Result<Items<Items<Item>>, NoMemory>
    ensures { IfOk result (λ blocks.
        blocks ≡ flat_map (handed_within all.now.them.now kind (length all.now.them.now)) names) }
{
    let depth = all.as_slice().len();
    let inherited = inherited(alloc, all, kind, depth, names)?;
    blocks_backwards(alloc, inherited.as_slice())
}

fn blocks_backwards(alloc: Global, ds: &[&Declaration]) -> Result<Items<Items<Item>>, NoMemory>
    ensures { IfOk result (λ blocks. blocks ≡ handed_back ds.now) }
{
    let mut blocks = Items::new(alloc);
    for place in (0..ds.len()).rev() {
        blocks.push(handed_on(alloc, ds[place])?)?;
    }
    Ok(blocks)
}

// The declarations and refinements of some objects and of those under them, along chains of bases of at most this length,
// the last one first. The objects that are left wait on a stack, since a chain may be longer than calls can be deep.
fn inherited<'a>(
    alloc: Global,
    all: &Declared<'a>,
    kind: Kind,
    depth: usize,
    names: Items<Text>,
) -> Result<Vec<&'a Declaration>, NoMemory>
    ensures { IfOk result (λ ds.
        handed_back ds.items ≡ flat_map (handed_within all.now.them.now kind depth) names) }
{
    let mut found = Vec::new(alloc);
    let mut todo = Vec::new(alloc);
    add_waiting(alloc, &mut todo, depth, names.as_slice())?;
    while let Some((left, name)) = todo.pop() {
        visit(alloc, all, kind, left, &name, &mut todo, &mut found)?;
    }
    Ok(found)
}

// Adds what an object has of its own, and lets its bases wait.
fn visit<'a>(
    alloc: Global,
    all: &Declared<'a>,
    kind: Kind,
    left: usize,
    name: &Text,
    todo: &mut Vec<(usize, Text)>,
    found: &mut Vec<&'a Declaration>,
) -> Result<(), NoMemory>
    ensures handed { OnOk result (
        flat_map (handed_at all.now.them.now kind) todo.new.items ++ handed_back found.new.items
        ≡ flat_map (handed_at all.now.them.now kind) todo.old.items ++ handed_within all.now.them.now kind left name.now
        ++ handed_back found.old.items) }
    ensures fewer { OnOk result (visits_of all.now.them.now kind todo.new.items
        < visits_of all.now.them.now kind todo.old.items + visits all.now.them.now kind left name.now) }
{
    if left == 0 {
        return Ok(());
    }
    let own = all.own(alloc, kind, name)?;
    add_backwards(found, own.as_slice())?;
    let bases = bases_among(alloc, own.as_slice())?;
    add_waiting(alloc, todo, left - 1, bases.as_slice())?;
    Ok(())
}

fn add_backwards<'a>(
    found: &mut Vec<&'a Declaration>,
    ds: &[&'a Declaration],
) -> Result<(), NoMemory>
    ensures { OnOk result (handed_back found.new.items
        ≡ map handed_on (map (λ d. d.now) ds.now) ++ handed_back found.old.items) }
{
    for place in (0..ds.len()).rev() {
        found.push(ds[place])?;
    }
    Ok(())
}

fn add_waiting(
    alloc: Global,
    todo: &mut Vec<(usize, Text)>,
    left: usize,
    names: &[Text],
) -> Result<(), NoMemory>
    ensures { OnOk result (todo.new.items ≡ todo.old.items ++ map (λ name. (left, name)) names.now) }
{
    for name in names {
        todo.push((left, name.copy(alloc)?))?;
    }
    Ok(())
}
