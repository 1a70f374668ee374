ghost use Rattle.std.specs.Prelude.{◌≡◌, ◌∷◌, [], IfOk, map, find, option_map, Some};
ghost use Rattle.std.specs.List.{flat_map, filter};
ghost use Rattle.std.specs.Option.{option_or};
ghost use Rattle.lk_params.specs.Parameters.{items_of, last_named};
ghost use Rattle.lk_merge.specs.Objects.{may_extend, lists_bases, extends_in, last_text, option_list, is_wrong, if_several, is_required, is_final, is_text, wrong_extends, object_with, objects, declaration_of, declared_names};
ghost use Rattle.lk_params.specs.Picking.{last_given};
ghost use Rattle.lk_merge.specs.Rows.{HasRows, row_of};

use crate::by_name::Declared;
use crate::contributors::{declaration_of, lists_bases, may_extend};
use crate::declaration::Declaration;
use crate::names::declared_names;
use crate::project::Object;
use crate::rows::{handed_rows, items_of};
use lk_overlay::Kind;
use lk_params::{copy_item, joined, last_named, parameters_of, scalar, words};
use lk_read::{Item, Tree};
use lk_val::{Items, NoMemory, Text};
use std::alloc::Global;
use std::collections::BTreeMap;

/// The effective objects of a kind, by name, without those that are there only for others to extend.
pub fn objects(alloc: Global, all: &Declared<'_>, kind: Kind) -> Result<Items<Object>, NoMemory>
    ensures { IfOk result (λ made. made ≡ objects all.now.them.now kind) }
{
    let names = declared_names(alloc, all.as_slice(), kind)?;
    let rows = handed_rows(alloc, all, kind, names.as_slice())?;
    let mut made = Items::new(alloc);
    for name in names.as_slice() {
        if !is_required(alloc, all, kind, name)? {
            made = joined(made, object_of(alloc, all, kind, &rows, name)?)?;
        }
    }
    Ok(made)
}

fn object_of(
    alloc: Global,
    all: &Declared<'_>,
    kind: Kind,
    rows: &BTreeMap<Text, Items<Item>>,
    name: &Text,
) -> Result<Items<Object>, NoMemory>
    requires { HasRows (row_of all.now.them.now kind) rows.now }
    ensures { IfOk result (λ made.
        made ≡ object_with all.now.them.now kind name.now (declaration_of all.now.them.now kind name.now)) }
{
    let mut made = Items::new(alloc);
    if let Some(d) = declaration_of(all.as_slice(), kind, name) {
        made.push(object_with(alloc, all, kind, rows, name, d)?)?;
    }
    Ok(made)
}

fn object_with(
    alloc: Global,
    all: &Declared<'_>,
    kind: Kind,
    rows: &BTreeMap<Text, Items<Item>>,
    name: &Text,
    d: &Declaration,
) -> Result<Object, NoMemory>
    requires { HasRows (row_of all.now.them.now kind) rows.now }
    ensures { IfOk result (λ made. made ∷ [] ≡ object_with all.now.them.now kind name.now (Some d.now)) }
{
    let items = items_of(alloc, all, kind, rows, name)?;
    let own = all.own(alloc, kind, name)?;
    let items = joined(items, wrong_extends(alloc, own.as_slice())?)?;
    Ok(Object {
        name: name.copy(alloc)?,
        tree: Tree::from_vec(items.into_vec()),
        path: d.path.copy(alloc)?,
    })
}

/// Whether an object is there only for others to extend.
pub fn is_required(
    alloc: Global,
    all: &Declared<'_>,
    kind: Kind,
    name: &Text,
) -> Result<bool, NoMemory>
    ensures { IfOk result (λ r. r ≡ is_required all.now.them.now kind name.now) }
{
    let own = all.own(alloc, kind, name)?;
    Ok(may_extend(kind) && is_text("required", last_text("extension", own.as_slice())))
}

/// Whether an object may not be refined.
pub fn is_final(
    alloc: Global,
    all: &Declared<'_>,
    kind: Kind,
    name: &Text,
) -> Result<bool, NoMemory>
    ensures { IfOk result (λ r. r ≡ is_final all.now.them.now kind name.now) }
{
    let own = all.own(alloc, kind, name)?;
    Ok(may_extend(kind) && is_text("yes", last_text("final", own.as_slice())))
}

fn is_text(text: &str, other: Option<&Text>) -> bool
    ensures { result ≡ is_text text.now (option_map (λ t. t.now) other.entry) }
{
    match other {
        None => false,
        Some(other) => other.as_str() == text,
    }
}

// The text of the last value of a parameter in some declarations.
fn last_text<'a>(parameter: &str, ds: &[&'a Declaration]) -> Option<&'a Text>
    ensures { option_map (λ t. t.now) result ≡ last_text parameter.now (map (λ d. d.now) ds.now) }
{
    match last_in(parameter, ds) {
        None => None,
        Some(item) => scalar(&item.value),
    }
}

fn last_in<'a>(parameter: &str, ds: &[&'a Declaration]) -> Option<&'a Item>
    ensures { option_map (λ item. item.now) result
        ≡ last_named parameter.now (flat_map (λ d. items_of d.tree) (map (λ d. d.now) ds.now)) }
{
    let mut found = None;
    for d in ds {
        found = later(last_named(parameter, parameters_of(&d.tree)), found);
    }
    found
}

fn later<'a>(item: Option<&'a Item>, found: Option<&'a Item>) -> Option<&'a Item>
    ensures { option_map (λ i. i.now) result
        ≡ option_or (option_map (λ i. i.now) item.entry) (option_map (λ i. i.now) found.entry) }
{
    match item {
        Some(item) => Some(item),
        None => found,
    }
}

// What is wrong with the `extends` of some declarations.
fn wrong_extends(alloc: Global, ds: &[&Declaration]) -> Result<Items<Item>, NoMemory>
    ensures { IfOk result (λ items. items ≡ wrong_extends (map (λ d. d.now) ds.now)) }
{
    let several = several(alloc, ds)?;
    if several.is_empty() {
        first_wrong(alloc, ds)
    } else {
        Ok(several)
    }
}

#[tactic(auto, using(lk_params::proofs::Steps::or_list_assoc))]
fn several(alloc: Global, ds: &[&Declaration]) -> Result<Items<Item>, NoMemory>
    ensures { IfOk result (λ items.
        items ≡ last_given (map (λ d. if_several (extends_in d)) (map (λ d. d.now) ds.now))) }
{
    let mut last = Items::new(alloc);
    for d in ds {
        let items = extends_in(alloc, d)?;
        if items.len() > 1 {
            last = items;
        }
    }
    Ok(last)
}

fn first_wrong(alloc: Global, ds: &[&Declaration]) -> Result<Items<Item>, NoMemory>
    ensures { IfOk result (λ items.
        items ≡ option_list (find is_wrong (flat_map extends_in (map (λ d. d.now) ds.now)))) }
{
    let all = all_extends(alloc, ds)?;
    let mut items = Items::new(alloc);
    if let Some(item) = find_wrong(alloc, all.as_slice())? {
        items.push(copy_item(alloc, item)?)?;
    }
    Ok(items)
}

fn find_wrong(alloc: Global, items: &[Item]) -> Result<Option<&Item>, NoMemory>
    ensures { IfOk result (λ found. option_map (λ item. item.now) found ≡ find is_wrong items.now) }
{
    for item in items {
        if is_wrong(alloc, item)? {
            return Ok(Some(item));
        }
    }
    Ok(None)
}

fn is_wrong(alloc: Global, item: &Item) -> Result<bool, NoMemory>
    ensures { IfOk result (λ wrong. wrong ≡ is_wrong item.now) }
{
    Ok(words(alloc, &item.value)?.is_none())
}

fn all_extends(alloc: Global, ds: &[&Declaration]) -> Result<Items<Item>, NoMemory>
    ensures { IfOk result (λ items. items ≡ flat_map extends_in (map (λ d. d.now) ds.now)) }
{
    let mut all = Items::new(alloc);
    for d in ds {
        all = joined(all, extends_in(alloc, d)?)?;
    }
    Ok(all)
}

fn extends_in(alloc: Global, d: &Declaration) -> Result<Items<Item>, NoMemory>
    ensures { IfOk result (λ items. items ≡ extends_in d.now) }
{
    let mut found = Items::new(alloc);
    for item in parameters_of(&d.tree) {
        if lists_bases(d.kind, item) {
            found.push(copy_item(alloc, item)?)?;
        }
    }
    Ok(found)
}
