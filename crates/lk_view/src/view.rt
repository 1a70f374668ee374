ghost use Rattle.std.specs.Prelude.{◌≡◌, IfOk, map};
ghost use Rattle.std.specs.Option.{option_and_then};
ghost use Rattle.lk_params.specs.Parameters.{items_of};
ghost use Rattle.lk_view.specs.FieldOrder.{fields_in};
ghost use Rattle.lk_view.specs.ViewFindings.{table_text};
ghost use Rattle.lk_written.specs.SchemaNames.{table_number};
ghost use Rattle.lk_view.specs.Views.{AreFields, AreRows, IsView};

use crate::derived_table::read_derived;
use crate::field_order::fields_in;
use crate::view_findings::{first_of_view, table_text};
use lk_objects::{DeclaredField, DeclaredView, Rows};
use lk_params::{last_named, parameters_of};
use lk_read::{Item, Tree};
use lk_types::Schema;
use lk_val::{Items, NoMemory, Text};
use lk_view_field::read_field;
use lk_written::{block_items, table_number};
use std::alloc::Global;

/// A view, read from its parameters: its fields in order, where its rows come from, and the first fault that its own
/// parameters show. (Looker, LookML reference: view)
pub fn read_view(
    alloc: Global,
    schema: &Schema,
    name: &Text,
    tree: &Tree,
) -> Result<DeclaredView, NoMemory>
    ensures { IfOk result (IsView schema.now name.now (items_of tree.now)) }
{
    let items = parameters_of(tree);
    Ok(DeclaredView {
        name: name.copy(alloc)?,
        fields: read_fields(alloc, name.as_str(), items)?,
        rows: read_rows(alloc, schema, name.as_str(), items)?,
        first: first_of_view(alloc, schema, name.as_str(), items)?,
    })
}

fn read_fields(alloc: Global, view: &str, items: &[Item]) -> Result<Items<DeclaredField>, NoMemory>
    ensures { IfOk result (AreFields view.now (fields_in items.now)) }
{
    let blocks = fields_in(alloc, items)?;
    read_blocks(alloc, view, blocks.as_slice())
}

fn read_blocks(
    alloc: Global,
    view: &str,
    blocks: &[&Item],
) -> Result<Items<DeclaredField>, NoMemory>
    ensures { IfOk result (AreFields view.now (map (λ b. b.now) blocks.now)) }
{
    let mut fields = Items::new(alloc);
    for block in blocks {
        fields.push(read_field(alloc, view, *block)?)?;
    }
    Ok(fields)
}

// Where the rows come from: the derived table where there is one, and else the stored table.
fn read_rows(alloc: Global, schema: &Schema, view: &str, items: &[Item]) -> Result<Rows, NoMemory>
    ensures { IfOk result (AreRows schema.now view.now items.now) }
{
    match last_named("derived_table", items) {
        Some(item) => Ok(Rows::Derived(read_derived(alloc, block_items(item))?)),
        None => Ok(Rows::Stored(stored_table(alloc, schema, view, items)?)),
    }
}

fn stored_table(
    alloc: Global,
    schema: &Schema,
    view: &str,
    items: &[Item],
) -> Result<Option<u32>, NoMemory>
    ensures { IfOk result (λ number. number ≡ option_and_then (table_number schema.now) (table_text view.now items.now)) }
{
    match table_text(alloc, view, items)? {
        None => Ok(None),
        Some(name) => match table_number(schema, name.as_bytes()) {
            None => Ok(None),
            Some(number) => Ok(Some(u32::try_from(number).map_err(|_| NoMemory)?)),
        },
    }
}
