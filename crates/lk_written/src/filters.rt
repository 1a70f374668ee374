ghost use Rattle.std.specs.Prelude.{◌≡◌, ◌++◌, codes, IfOk};
ghost use Rattle.std.specs.List.{flat_map};
ghost use Rattle.lk_read.specs.EntryOutline.{entries_of, entry_of};
ghost use Rattle.lk_written.specs.Values.{filters_at, filters_in, is_pair, pair_of, pair_with, text_at};

use crate::values::text_at;
use lk_params::parameters_of;
use lk_read::{Entry, Item, Node};
use lk_val::{Items, NoMemory, Text};
use std::alloc::Global;

/// The filters of a block, in order: each a field's name and a text. (Looker, LookML reference: filters)
pub fn filters_at(alloc: Global, items: &[Item]) -> Result<Items<(Text, Text)>, NoMemory>
    ensures { IfOk result (λ filters. filters ≡ filters_at items.now) }
{
    let mut filters = Items::new(alloc);
    for item in items {
        if item.name.as_str() == "filters" {
            add_filters(alloc, &item.value, &mut filters)?;
        }
    }
    Ok(filters)
}

fn add_filters(
    alloc: Global,
    value: &Node,
    filters: &mut Items<(Text, Text)>,
) -> Result<(), NoMemory>
    ensures { IfOk result (λ _. filters.new ≡ filters.old ++ filters_in value.now) }
{
    match value {
        Node::List(entries) => add_pairs(alloc, entries.as_slice(), filters),
        Node::Block(None, inner) => add_older(alloc, parameters_of(inner), filters),
        _ => Ok(()),
    }
}

fn add_pairs(
    alloc: Global,
    entries: &[Entry],
    filters: &mut Items<(Text, Text)>,
) -> Result<(), NoMemory>
    ensures { IfOk result (λ _. filters.new ≡ filters.old ++ flat_map pair_of (entries_of entries.now)) }
{
    for entry in entries {
        if let Entry::Pair(name, text) = entry {
            filters.push((name.copy(alloc)?, text.copy(alloc)?))?;
        }
    }
    Ok(())
}

// The filter of an older block, where it has both of its parts.
fn add_older(
    alloc: Global,
    items: &[Item],
    filters: &mut Items<(Text, Text)>,
) -> Result<(), NoMemory>
    ensures { IfOk result (λ _. filters.new
        ≡ filters.old ++ pair_with (text_at (codes "field") items.now) (text_at (codes "value") items.now)) }
{
    if let (Some(name), Some(text)) = (text_at("field", items), text_at("value", items)) {
        filters.push((name.copy(alloc)?, text.copy(alloc)?))?;
    }
    Ok(())
}

pub(crate) fn is_pair(entry: &Entry) -> bool
    ensures { result ≡ is_pair (entry_of entry.now) }
{
    match entry {
        Entry::Pair(_, _) => true,
        Entry::One(_) => false,
    }
}
