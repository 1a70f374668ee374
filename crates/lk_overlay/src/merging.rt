ghost use Rattle.std.specs.Prelude.{◌≡◌, ◌∷◌, [], IfOk, map};
ghost use Rattle.std.specs.List.{flat_map, fold};
ghost use Rattle.lk_params.specs.Picking.{last_given, with_new};
ghost use Rattle.lk_overlay.specs.Grouped.{all_of, last_number, of_last, of_number, read};
ghost use Rattle.lk_overlay.specs.Overlay.{is_same_slot, slot_of, in_slot, inner_of, with_inner, merged_child, filled, slots_in, merged};

use crate::grouped::{Grouped, KnownSlots};
use crate::kind::Kind;
use crate::slot::{Slot, slot_of};
use lk_params::{copy_item, copy_items, copy_title, copy_value, joined, overlaid};
use lk_read::{Item, Node, Tree};
use lk_val::{Items, NoMemory};
use std::alloc::Global;

/// The parameters of an object, given those of its contributors.
pub fn merged(alloc: Global, kind: Kind, blocks: &[Items<Item>]) -> Result<Items<Item>, NoMemory>
    ensures { IfOk result (λ items. items ≡ merged kind blocks.now) }
{
    let slots = slots_in(alloc, kind, blocks)?;
    let grouped = Grouped::new(alloc, kind, blocks)?;
    let mut items = Items::new(alloc);
    for slot in slots.as_slice() {
        items = joined(items, filled(alloc, &grouped, slot)?)?;
    }
    Ok(items)
}

// What stands in a slot.
fn filled(alloc: Global, grouped: &Grouped<'_>, slot: &Slot) -> Result<Items<Item>, NoMemory>
    ensures { IfOk result (λ items. items ≡ filled grouped.now.kind grouped.now.blocks.now slot.now) }
{
    match slot {
        Slot::Parameter(_) => last_in_slot(alloc, grouped, slot),
        Slot::Child(_, _) => merged_child(alloc, all_in_slot(alloc, grouped, slot)?.as_slice()),
        Slot::Alone(item) => one(alloc, copy_item(alloc, item)?),
    }
}

fn one(alloc: Global, item: Item) -> Result<Items<Item>, NoMemory>
    ensures { IfOk result (λ items. items ≡ item ∷ []) }
{
    let mut items = Items::new(alloc);
    items.push(item)?;
    Ok(items)
}

// The parameters that go to a slot, in the last block that has some.
#[tactic(auto, using(crate::proofs::GroupLaws::last_numbered))]
fn last_in_slot(alloc: Global, grouped: &Grouped<'_>, slot: &Slot) -> Result<Items<Item>, NoMemory>
    ensures { IfOk result (λ items.
        items ≡ last_given (map (in_slot grouped.now.kind slot.now) grouped.now.blocks.now)) }
{
    let found = grouped.found(alloc, slot)?;
    of_last(alloc, found.as_slice())
}

// Those of the last block.
fn of_last(alloc: Global, found: &[(usize, &Item)]) -> Result<Items<Item>, NoMemory>
    ensures { IfOk result (λ items. items ≡ of_last (map read found.now)) }
{
    match last_number(found) {
        None => Ok(Items::new(alloc)),
        Some(number) => of_number(alloc, number, found),
    }
}

fn last_number(found: &[(usize, &Item)]) -> Option<usize>
    ensures { result ≡ last_number (map read found.now) }
{
    let mut last = None;
    for entry in found {
        last = Some(entry.0);
    }
    last
}

fn of_number(
    alloc: Global,
    number: usize,
    found: &[(usize, &Item)],
) -> Result<Items<Item>, NoMemory>
    ensures { IfOk result (λ items. items ≡ of_number number (map read found.now)) }
{
    let mut items = Items::new(alloc);
    for entry in found {
        if entry.0 == number {
            items.push(copy_item(alloc, entry.1)?)?;
        }
    }
    Ok(items)
}

// The parameters of all blocks that go to a slot, in order.
#[tactic(auto, using(crate::proofs::GroupLaws::all_numbered))]
fn all_in_slot(alloc: Global, grouped: &Grouped<'_>, slot: &Slot) -> Result<Items<Item>, NoMemory>
    ensures { IfOk result (λ items. items ≡ flat_map (in_slot grouped.now.kind slot.now) grouped.now.blocks.now) }
{
    let found = grouped.found(alloc, slot)?;
    all_of(alloc, found.as_slice())
}

fn all_of(alloc: Global, found: &[(usize, &Item)]) -> Result<Items<Item>, NoMemory>
    ensures { IfOk result (λ items. items ≡ all_of (map read found.now)) }
{
    let mut items = Items::new(alloc);
    for entry in found {
        items.push(copy_item(alloc, entry.1)?)?;
    }
    Ok(items)
}

// Children of one name as one.
fn merged_child(alloc: Global, children: &[Item]) -> Result<Items<Item>, NoMemory>
    ensures { IfOk result (λ items. items ≡ merged_child children.now) }
{
    match children {
        [] => Ok(Items::new(alloc)),
        [first, ..] => {
            let blocks = inner_blocks(alloc, children)?;
            let inner = overlaid(alloc, blocks.as_slice())?;
            let child = Item {
                name: first.name.copy(alloc)?,
                value: with_inner(alloc, &first.value, inner)?,
                place: first.place,
            };
            one(alloc, child)
        }
    }
}

fn inner_blocks(alloc: Global, children: &[Item]) -> Result<Items<Items<Item>>, NoMemory>
    ensures { IfOk result (λ blocks. blocks ≡ map (λ item. inner_of item.value) children.now) }
{
    let mut blocks = Items::new(alloc);
    for child in children {
        blocks.push(inner_of(alloc, &child.value)?)?;
    }
    Ok(blocks)
}

fn inner_of(alloc: Global, value: &Node) -> Result<Items<Item>, NoMemory>
    ensures { IfOk result (λ items. items ≡ inner_of value.now) }
{
    match value {
        Node::Block(_, inner) => copy_items(alloc, inner),
        _ => Ok(Items::new(alloc)),
    }
}

fn with_inner(alloc: Global, value: &Node, items: Items<Item>) -> Result<Node, NoMemory>
    ensures { IfOk result (λ made. made ≡ with_inner value.now items) }
{
    match value {
        Node::Block(title, _) => Ok(Node::Block(
            copy_title(alloc, title)?,
            Tree::from_vec(items.into_vec()),
        )),
        _ => copy_value(alloc, value),
    }
}

// The slots of all parameters, each once, in the order of first standing.
fn slots_in(alloc: Global, kind: Kind, blocks: &[Items<Item>]) -> Result<Items<Slot>, NoMemory>
    ensures { IfOk result (λ slots. slots ≡ slots_in kind blocks.now) }
{
    all_slots(alloc, kind, blocks)
}

fn all_slots(alloc: Global, kind: Kind, blocks: &[Items<Item>]) -> Result<Items<Slot>, NoMemory>
    ensures { IfOk result (λ slots.
        slots ≡ fold (with_new is_same_slot) [] (flat_map (map (slot_of kind)) blocks.now)) }
{
    let mut known = KnownSlots::new(alloc);
    for block in blocks {
        known = with_slots(alloc, kind, known, block.as_slice())?;
    }
    Ok(known.into_slots())
}

fn with_slots(
    alloc: Global,
    kind: Kind,
    known: KnownSlots,
    items: &[Item],
) -> Result<KnownSlots, NoMemory>
    ensures { IfOk result (λ with. with.slots ≡ fold (with_new is_same_slot) known.slots (map (slot_of kind) items.now)) }
{
    let mut known = known;
    for item in items {
        known = known.with(alloc, slot_of(alloc, kind, item)?)?;
    }
    Ok(known)
}
