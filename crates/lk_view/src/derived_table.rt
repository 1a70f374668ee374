ghost use Rattle.std.specs.Prelude.{◌≡◌, ◌+◌, ◌++◌, IfOk, map, option_map};
ghost use Rattle.std.specs.Option.{option_and_then};
ghost use Rattle.std.specs.List.{filter, list_any};
ghost use Rattle.lk_params.specs.Values.{scalar};
ghost use Rattle.lk_written.specs.Blocks.{block_items, block_name};
ghost use Rattle.lk_view.specs.DerivedTables.{IsDerived, column_entries, column_of, columns_in, entries_in, field_of, given_by, is_column, is_column_of, last_field, source_items, source_name};

use lk_objects::{DeclaredColumn, DerivedTable, Entry};
use lk_params::{firsts, last_named, scalar, titled};
use lk_read::Item;
use lk_val::{Items, NoMemory, Text};
use lk_written::{
    add_filter_entries, block_items, block_name, copied_text, filters_at, is_block_of,
    read_filters, text_at,
};
use std::alloc::Global;
use std::slice;

/// A native derived table, read from its parameters: the explore that it is made from, its columns, each once in the order
/// of first standing, its filters, and what it names in the order of the text. (Looker, LookML reference: derived_table,
/// explore_source)
pub fn read_derived(alloc: Global, items: &[Item]) -> Result<DerivedTable, NoMemory>
    ensures { IfOk result (IsDerived items.now) }
{
    let source = source_items(items);
    Ok(DerivedTable {
        explore: copied_text(alloc, source_name(items))?,
        columns: columns_in(alloc, source)?,
        filters: read_filters(alloc, source)?,
        datagroup: copied_text(alloc, text_at("datagroup_trigger", items))?,
        entries: entries_in(alloc, source)?,
    })
}

fn source_name(items: &[Item]) -> Option<&Text>
    ensures { option_map (λ t. t.now) result ≡ source_name items.now }
{
    titled(&last_named("explore_source", items)?.value)
}

fn source_items(items: &[Item]) -> &[Item]
    ensures { result.now ≡ source_items items.now }
{
    match last_named("explore_source", items) {
        None => &[],
        Some(item) => block_items(item),
    }
}

fn is_column(item: &Item) -> bool
    ensures { result ≡ is_column item.now }
{
    is_block_of("column", item)
}

fn is_column_of(name: &str, item: &Item) -> bool
    ensures { result ≡ is_column_of name.now item.now }
{
    is_column(item) && block_name(item) == name
}

fn columns_in(alloc: Global, source: &[Item]) -> Result<Items<DeclaredColumn>, NoMemory>
    ensures { IfOk result (λ columns. columns ≡ columns_in source.now) }
{
    let names = column_names(alloc, source)?;
    let once = firsts(alloc, names.as_slice())?;
    columns_of(alloc, source, once.as_slice())
}

fn columns_of(
    alloc: Global,
    source: &[Item],
    names: &[Text],
) -> Result<Items<DeclaredColumn>, NoMemory>
    ensures { IfOk result (λ columns. columns ≡ map (column_of source.now) names.now) }
{
    let mut columns = Items::new(alloc);
    for name in names {
        columns.push(column_of(alloc, source, name)?)?;
    }
    Ok(columns)
}

// The names of all columns, in order.
fn column_names(alloc: Global, source: &[Item]) -> Result<Items<Text>, NoMemory>
    ensures { IfOk result (λ names. names ≡ map block_name (filter is_column source.now)) }
{
    let mut names = Items::new(alloc);
    for item in source {
        if is_column(item) {
            names.push(Text::from_str(alloc, block_name(item))?)?;
        }
    }
    Ok(names)
}

fn column_of(alloc: Global, source: &[Item], name: &Text) -> Result<DeclaredColumn, NoMemory>
    ensures { IfOk result (λ column. column ≡ column_of source.now name.now) }
{
    Ok(DeclaredColumn {
        name: name.copy(alloc)?,
        field: field_of(alloc, source, name.as_str())?,
    })
}

// The field that a column takes: by the last `field` of the blocks of its name, and else the field of the column's name.
fn field_of(alloc: Global, source: &[Item], name: &str) -> Result<Text, NoMemory>
    ensures { IfOk result (λ field. field ≡ field_of source.now name.now) }
{
    match field_text(source, name) {
        None => Text::from_str(alloc, name),
        Some(text) => text.copy(alloc),
    }
}

fn field_text<'a>(source: &'a [Item], name: &str) -> Option<&'a Text>
    ensures { option_map (λ t. t.now) result
        ≡ option_and_then (λ item. scalar item.value) (last_field name.now source.now) }
{
    scalar(&last_field(source, name)?.value)
}

fn last_field<'a>(source: &'a [Item], name: &str) -> Option<&'a Item>
    ensures { option_map (λ item. item.now) result ≡ last_field name.now source.now }
{
    let mut last = None;
    for item in source {
        if let Some(given) = given_by(name, item) {
            last = Some(given);
        }
    }
    last
}

// The `field` that one block gives to a column.
fn given_by<'a>(name: &str, item: &'a Item) -> Option<&'a Item>
    ensures { option_map (λ given. given.now) result ≡ given_by name.now item.now }
{
    if is_column_of(name, item) {
        last_named("field", block_items(item))
    } else {
        None
    }
}

fn entries_in(alloc: Global, source: &[Item]) -> Result<Items<Entry>, NoMemory>
    ensures { IfOk result (λ entries. entries ≡ entries_in source.now) }
{
    let mut entries = Items::new(alloc);
    let mut filters: u32 = 0;
    for place in 0..source.len() {
        let item = &source[place];
        if is_column(item) {
            add_column(alloc, source, &source[..place], item, &mut entries)?;
        } else {
            let more = filters_at(alloc, slice::from_ref(item))?.len();
            filters = add_filter_entries(filters, more, &mut entries)?;
        }
    }
    Ok(entries)
}

// A column where it first stands.
fn add_column(
    alloc: Global,
    source: &[Item],
    before: &[Item],
    item: &Item,
    entries: &mut Items<Entry>,
) -> Result<(), NoMemory>
    ensures { IfOk result (λ _. entries.new ≡ entries.old ++ column_entries source.now before.now item.now) }
{
    let name = block_name(item);
    if has_column(name, before) {
        return Ok(());
    }
    let field = field_of(alloc, source, name)?;
    entries.push(Entry::Column(field))?;
    Ok(())
}

fn has_column(name: &str, items: &[Item]) -> bool
    ensures { result ≡ list_any (is_column_of name.now) items.now }
{
    items.iter().any(|item| is_column_of(name, item))
}
