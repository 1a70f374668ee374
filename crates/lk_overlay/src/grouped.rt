ghost use Rattle.std.specs.Prelude.{◌≡◌, ◌++◌, ◌∷◌, [], IfOk, List, OnOk, Some, if◌then◌else◌, map, not};
ghost use Rattle.std.specs.Ordering.{is_eq};
ghost use Rattle.lk_overlay.specs.declared.slot.Slot.{Slot as SlotValue};
ghost use Rattle.lk_params.specs.Picking.{with_new};
ghost use Rattle.lk_overlay.specs.Overlay.{is_same_slot, in_slot, slot_of};
ghost use Rattle.lk_overlay.specs.Grouped.{HasGroups, HasKeys, SlotKey, has_key, key_cmp, key_of, numbered, read, those_at};

use crate::kind::Kind;
use crate::slot::{Slot, slot_of};
use lk_read::Item;
use lk_val::{Items, NoMemory, Text};
use std::alloc::Global;
use std::collections::{BTreeMap, BTreeSet};

// What slots are ordered by: the name of a parameter or a child, and a child's title.
type Key = (Text, Option<Text>);

/// Slots in the order of first standing, with a set of their keys.
#[derive(Drop)]
pub struct KnownSlots {
    slots: Items<Slot>,
    seen: BTreeSet<Key>,
    ghost keys: { HasKeys slots seen },
}

impl KnownSlots {
    /// No slot.
    pub fn new(alloc: Global) -> KnownSlots
        ensures { result.slots ≡ [] }
    {
        KnownSlots {
            slots: Items::new(alloc),
            seen: BTreeSet::new(alloc),
        }
    }

    /// The slots with one more, unless they have it.
    pub fn with(self, alloc: Global, slot: Slot) -> Result<KnownSlots, NoMemory>
        ensures { IfOk result (λ with. with.slots ≡ with_new is_same_slot self.slots slot) }
    {
        let KnownSlots {
            mut slots,
            mut seen,
        } = self;
        add_slot(alloc, &mut slots, &mut seen, slot)?;
        Ok(KnownSlots { slots, seen })
    }

    /// The slots alone.
    pub fn into_slots(self) -> Items<Slot>
        ensures { result ≡ self.slots }
    {
        let KnownSlots { slots, .. } = self;
        slots
    }
}

fn add_slot(
    alloc: Global,
    slots: &mut Items<Slot>,
    seen: &mut BTreeSet<Key>,
    slot: Slot,
) -> Result<(), NoMemory>
    requires { HasKeys slots.old seen.old }
    ensures slots { OnOk result (slots.new ≡ with_new is_same_slot slots.old slot) }
    ensures keys { OnOk result (HasKeys slots.new seen.new) }
{
    if add_key(alloc, seen, &slot)? {
        slots.push(slot)?;
    } else {
        // Let go of by a call: it has less to prove than the slot's parts, which the block's end would let go of.
        drop(slot);
    }
    Ok(())
}

// Takes up a slot's key, and says whether it is a further one.
fn add_key(alloc: Global, seen: &mut BTreeSet<Key>, slot: &Slot) -> Result<bool, NoMemory>
    ensures further { IfOk result (λ further. further ≡ not (has_key seen.old (key_of slot.now))) }
    ensures keys { OnOk result ((slots : List SlotValue) → HasKeys slots seen.old
        → HasKeys (with_new is_same_slot slots slot.now) seen.new) }
{
    match key_of(alloc, slot)? {
        None => Ok(true),
        Some(key) => Ok(seen.insert(key)?),
    }
}

/// The parameters of some blocks, to be found by slot.
#[derive(Drop)]
pub struct Grouped<'a> {
    kind: Kind,
    blocks: &'a [Items<Item>],
    groups: BTreeMap<Key, Items<(usize, &'a Item)>>,
    ghost found: { HasGroups kind blocks.now groups },
}

impl<'a> Grouped<'a> {
    /// The parameters by slot, found in time n log n.
    pub fn new(
        alloc: Global,
        kind: Kind,
        blocks: &'a [Items<Item>],
    ) -> Result<Grouped<'a>, NoMemory>
        ensures { IfOk result (λ grouped. (grouped.kind ≡ kind) × (grouped.blocks.now ≡ blocks.now)) }
    {
        let groups = groups_of(alloc, kind, blocks)?;
        Ok(Grouped {
            kind,
            blocks,
            groups,
        })
    }

    /// The parameters that go to a slot, each with the number of its block, in order.
    pub fn found(&self, alloc: Global, slot: &Slot) -> Result<Vec<(usize, &'a Item)>, NoMemory>
        ensures { IfOk result (λ entries. map read entries.items ≡ numbered self.now.kind slot.now 0 self.now.blocks.now) }
    {
        match key_of(alloc, slot)? {
            None => Ok(Vec::new(alloc)),
            Some(key) => match self.groups.get(&key) {
                None => Ok(Vec::new(alloc)),
                Some(entries) => same(alloc, entries.as_slice()),
            },
        }
    }
}

fn same<'a>(
    alloc: Global,
    entries: &[(usize, &'a Item)],
) -> Result<Vec<(usize, &'a Item)>, NoMemory>
    ensures { IfOk result (λ made. map read made.items ≡ map read entries.now) }
{
    let mut made = Vec::new(alloc);
    for entry in entries {
        made.push((entry.0, entry.1))?;
    }
    Ok(made)
}

fn groups_of<'a>(
    alloc: Global,
    kind: Kind,
    blocks: &'a [Items<Item>],
) -> Result<BTreeMap<Key, Items<(usize, &'a Item)>>, NoMemory>
    ensures { IfOk result (HasGroups kind blocks.now) }
{
    let mut groups = BTreeMap::new(alloc);
    for (number, block) in blocks.iter().enumerate() {
        add_block(alloc, kind, number, block.as_slice(), &mut groups)?;
    }
    Ok(groups)
}

fn add_block<'a>(
    alloc: Global,
    kind: Kind,
    number: usize,
    block: &'a [Item],
    groups: &mut BTreeMap<Key, Items<(usize, &'a Item)>>,
) -> Result<(), NoMemory>
    ensures { OnOk result ((slot : SlotValue) → those_at groups.new (key_of slot)
        ≡ those_at groups.old (key_of slot) ++ map (λ item. (number, item)) (in_slot kind slot block.now)) }
{
    for item in block {
        add_item(alloc, kind, number, item, groups)?;
    }
    Ok(())
}

fn add_item<'a>(
    alloc: Global,
    kind: Kind,
    number: usize,
    item: &'a Item,
    groups: &mut BTreeMap<Key, Items<(usize, &'a Item)>>,
) -> Result<(), NoMemory>
    ensures { OnOk result ((slot : SlotValue) → those_at groups.new (key_of slot)
        ≡ those_at groups.old (key_of slot)
        ++ (if is_same_slot slot (slot_of kind item.now) then (number, item.now) ∷ [] else [])) }
{
    match item_key(alloc, kind, item)? {
        None => Ok(()),
        Some(key) => {
            add_at(alloc, key, number, item, groups)?;
            Ok(())
        }
    }
}

// The key of an item's slot.
fn item_key(alloc: Global, kind: Kind, item: &Item) -> Result<Option<Key>, NoMemory>
    ensures { IfOk result (λ key. key ≡ key_of (slot_of kind item.now)) }
{
    let slot = slot_of(alloc, kind, item)?;
    key_of(alloc, &slot)
}

fn add_at<'a>(
    alloc: Global,
    key: Key,
    number: usize,
    item: &'a Item,
    groups: &mut BTreeMap<Key, Items<(usize, &'a Item)>>,
) -> Result<(), NoMemory>
    ensures { OnOk result ((q : SlotKey) → those_at groups.new (Some q)
        ≡ those_at groups.old (Some q)
        ++ (if is_eq (key_cmp key q) then (number, item.now) ∷ [] else [])) }
{
    match groups.get_mut(&key) {
        Some(found) => {
            found.push((number, item))?;
            Ok(())
        }
        None => {
            let mut found = Items::new(alloc);
            found.push((number, item))?;
            groups.insert(key, found)?;
            Ok(())
        }
    }
}

fn key_of(alloc: Global, slot: &Slot) -> Result<Option<Key>, NoMemory>
    ensures { IfOk result (λ key. key ≡ key_of slot.now) }
{
    match slot {
        Slot::Parameter(name) => Ok(Some((name.copy(alloc)?, None))),
        Slot::Child(name, title) => Ok(Some((name.copy(alloc)?, Some(title.copy(alloc)?)))),
        Slot::Alone(_) => Ok(None),
    }
}
