ghost use Rattle.std.specs.Prelude.{◌≡◌, ◌+◌, ◌++◌, ◌∷◌, [], IfOk, List, codes, length, map};
ghost use Rattle.lk_written.specs.Blocks.{block_items, block_name};
ghost use Rattle.lk_objects.specs.declared.view.Entry.TheVariants as entry;
ghost use Rattle.lk_read.specs.declared.tree.Item.{Item};
ghost use Rattle.lk_written.specs.Values.{filters_at};
ghost use Rattle.lk_explore.specs.Values.{words_at, words_in};
ghost use Rattle.lk_written.specs.ReadFilters.{AreFilters};
ghost use Rattle.lk_explore.specs.Rollups.{IsRollup, entries_at, entries_in};

use crate::rollup_findings::first_of_rollup;
use crate::values::{block_at, words_at, words_in};
use lk_objects::{AggregateTable, Entry, FilterText};
use lk_read::{Item, Node};
use lk_val::{Items, NoMemory, Text};
use lk_written::{
    add_filter_entries, block_items, block_name, copied_text, filters_at, read_filters, text_at,
};
use std::alloc::Global;
use std::slice;

// An aggregate table of an explore, read from its block, with the first fault that its own parameters show.
pub(crate) fn read_rollup(alloc: Global, item: &Item) -> Result<AggregateTable, NoMemory>
    ensures { IfOk result (IsRollup (block_name item.now) (block_items item.now)) }
{
    let name = block_name(item);
    let items = block_items(item);
    let query = read_query(alloc, block_at("query", items))?;
    let materialization = block_at("materialization", items);
    let datagroup = copied_text(alloc, text_at("datagroup_trigger", materialization))?;
    let first = first_of_rollup(alloc, name, items)?;
    let name = Text::from_str(alloc, name)?;
    Ok(AggregateTable {
        name,
        dimensions: query.dimensions,
        measures: query.measures,
        filters: query.filters,
        datagroup,
        entries: query.entries,
        first,
    })
}

// What the query of an aggregate table has.
#[derive(Drop)]
struct Query {
    dimensions: Items<Text>,
    measures: Items<Text>,
    filters: Items<FilterText>,
    entries: Items<Entry>,
}

fn read_query(alloc: Global, query: &[Item]) -> Result<Query, NoMemory>
    ensures dimensions { IfOk result (λ read. read.dimensions ≡ words_at (codes "dimensions") query.now) }
    ensures measures { IfOk result (λ read. read.measures ≡ words_at (codes "measures") query.now) }
    ensures filters { IfOk result (λ read. AreFilters (filters_at query.now) read.filters) }
    ensures entries { IfOk result (λ read. read.entries ≡ entries_in query.now) }
{
    let dimensions = words_at(alloc, "dimensions", query)?;
    let measures = words_at(alloc, "measures", query)?;
    let filters = read_filters(alloc, query)?;
    let entries = entries_in(alloc, query)?;
    Ok(Query {
        dimensions,
        measures,
        filters,
        entries,
    })
}

// What the query names, in the order of the text.
fn entries_in(alloc: Global, query: &[Item]) -> Result<Items<Entry>, NoMemory>
    ensures { IfOk result (λ entries. entries ≡ entries_in query.now) }
{
    let mut entries = Items::new(alloc);
    let mut filters: u32 = 0;
    for place in 0..query.len() {
        filters = add_entries(alloc, filters, &query[place], &mut entries)?;
    }
    Ok(entries)
}

// What one parameter names, where its filters are numbered from one on; the next number is answered.
fn add_entries(
    alloc: Global,
    first: u32,
    item: &Item,
    entries: &mut Items<Entry>,
) -> Result<u32, NoMemory>
    ensures named { (before : List Item) → first ≡ length (filters_at before)
        → IfOk result (λ next. entries.new ≡ entries.old ++ entries_at before item.now) }
    ensures next { IfOk result (λ next. next ≡ first + length (filters_at (item.now ∷ []))) }
{
    let name = item.name.as_str();
    if name == "dimensions" {
        add_dimensions(alloc, &item.value, entries)?;
        Ok(first)
    } else if name == "measures" {
        add_measures(alloc, &item.value, entries)?;
        Ok(first)
    } else {
        let count = filters_at(alloc, slice::from_ref(item))?.len();
        add_filter_entries(first, count, entries)
    }
}

fn add_dimensions(alloc: Global, value: &Node, entries: &mut Items<Entry>) -> Result<(), NoMemory>
    ensures { IfOk result (λ _. entries.new ≡ entries.old ++ map entry.Dimension (words_in value.now)) }
{
    let names = words_in(alloc, value)?;
    for name in names.as_slice() {
        entries.push(Entry::Dimension(name.copy(alloc)?))?;
    }
    Ok(())
}

fn add_measures(alloc: Global, value: &Node, entries: &mut Items<Entry>) -> Result<(), NoMemory>
    ensures { IfOk result (λ _. entries.new ≡ entries.old ++ map entry.Measure (words_in value.now)) }
{
    let names = words_in(alloc, value)?;
    for name in names.as_slice() {
        entries.push(Entry::Measure(name.copy(alloc)?))?;
    }
    Ok(())
}
