ghost use Rattle.std.specs.Prelude.{◌≡◌, ℕ, List, IfOk, IfSome, OnOk, map, true};
ghost use Rattle.lk_read.specs.declared.tree.Item.{Item as ItemValue};
ghost use Rattle.lk_merge.specs.Objects.{contributors};
ghost use Rattle.lk_overlay.specs.Overlay.{merged};
ghost use Rattle.lk_merge.specs.Ranks.{do_descend};
ghost use Rattle.lk_merge.specs.Rows.{HasRows, row_of};

use crate::by_name::Declared;
use crate::contributors::{bases_of, contributors, handed_on_by_each, kept_by_each};
use crate::ranks::{do_descend, rank_in, ranks};
use lk_overlay::{Kind, merged};
use lk_params::{copy_item, joined};
use lk_read::Item;
use lk_val::{Items, NoMemory, Text};
use std::alloc::Global;
use std::collections::BTreeMap;

/// The parameters of an object, from what its bases hand on.
#[tactic(auto, using(lk_overlay::proofs::MergeLaws::merged_by_each))]
pub fn items_of(
    alloc: Global,
    all: &Declared<'_>,
    kind: Kind,
    rows: &BTreeMap<Text, Items<Item>>,
    name: &Text,
) -> Result<Items<Item>, NoMemory>
    requires { HasRows (row_of all.now.them.now kind) rows.now }
    ensures { IfOk result (λ items. items ≡ merged kind (contributors all.now.them.now kind name.now)) }
{
    let bases = bases_of(alloc, all, kind, name)?;
    match rows_of(alloc, rows, bases.as_slice())? {
        Some(inherited) => {
            let own = all.own(alloc, kind, name)?;
            let blocks = joined(inherited, kept_by_each(alloc, own.as_slice())?)?;
            merged(alloc, kind, blocks.as_slice())
        }
        None => {
            let blocks = contributors(alloc, all, kind, name)?;
            merged(alloc, kind, blocks.as_slice())
        }
    }
}

/// What each object hands on as one block, by its name. An object is left out where its bases are.
pub fn handed_rows(
    alloc: Global,
    all: &Declared<'_>,
    kind: Kind,
    names: &[Text],
) -> Result<BTreeMap<Text, Items<Item>>, NoMemory>
    ensures { IfOk result (HasRows (row_of all.now.them.now kind)) }
{
    let ranks = ranks(alloc, all, kind, names)?;
    let order = by_rank(alloc, ranks.as_slice())?;
    let mut rows = BTreeMap::new(alloc);
    if do_descend(alloc, all, kind, names, ranks.as_slice())? {
        for place in order.as_slice() {
            if *place < names.len() {
                add_row(
                    alloc,
                    all,
                    kind,
                    names,
                    ranks.as_slice(),
                    &names[*place],
                    &mut rows,
                )?;
            }
        }
    }
    Ok(rows)
}

// The places of the ranks, the lowest first.
fn by_rank(alloc: Global, ranks: &[usize]) -> Result<Vec<usize>, NoMemory> {
    let mut ranked = Vec::new(alloc);
    for place in 0..ranks.len() {
        ranked.push((ranks[place], place))?;
    }
    ranked.sort()?;
    let mut order = Vec::new(alloc);
    for entry in ranked.as_slice() {
        order.push(entry.1)?;
    }
    Ok(order)
}

// Adds what an object hands on, where its bases have theirs.
fn add_row(
    alloc: Global,
    all: &Declared<'_>,
    kind: Kind,
    names: &[Text],
    ranks: &[usize],
    name: &Text,
    rows: &mut BTreeMap<Text, Items<Item>>,
) -> Result<(), NoMemory>
    requires ranked { do_descend all.now.them.now kind names.now ranks.now names.now ≡ true }
    requires rows { HasRows (row_of all.now.them.now kind) rows.old }
    ensures { OnOk result (HasRows (row_of all.now.them.now kind) rows.new) }
{
    let Some(rank) = rank_in(names, ranks, name) else {
        return Ok(());
    };
    if rank >= all.as_slice().len() {
        return Ok(());
    }
    let bases = bases_of(alloc, all, kind, name)?;
    match rows_of(alloc, rows, bases.as_slice())? {
        None => Ok(()),
        Some(inherited) => {
            let own = all.own(alloc, kind, name)?;
            let blocks = joined(inherited, handed_on_by_each(alloc, own.as_slice())?)?;
            let row = merged(alloc, kind, blocks.as_slice())?;
            rows.insert(name.copy(alloc)?, row)?;
            Ok(())
        }
    }
}

// What each of some names has, if all have something.
fn rows_of(
    alloc: Global,
    rows: &BTreeMap<Text, Items<Item>>,
    names: &[Text],
) -> Result<Option<Items<Items<Item>>>, NoMemory>
    ensures { (row : List ℕ → List ItemValue) → HasRows row rows.now
        → IfOk result (λ found. IfSome found (λ blocks. blocks ≡ map row names.now)) }
{
    let mut blocks = Items::new(alloc);
    for name in names {
        match rows.get(name) {
            None => return Ok(None),
            Some(row) => blocks.push(copied(alloc, row.as_slice())?)?,
        }
    }
    Ok(Some(blocks))
}

fn copied(alloc: Global, items: &[Item]) -> Result<Items<Item>, NoMemory>
    ensures { IfOk result (λ copied. copied ≡ items.now) }
{
    let mut copied = Items::new(alloc);
    for item in items {
        copied.push(copy_item(alloc, item)?)?;
    }
    Ok(copied)
}
