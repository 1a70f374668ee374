ghost use Rattle.std.specs.Prelude.{◌≡◌, ◌≤◌, IfOk, length, map};
ghost use Rattle.std.specs.List.{position_or_len};
ghost use Rattle.lk_view.specs.FieldOrder.{fields_in, goes_before, is_field, kind_rank, put_in};

use lk_read::Item;
use lk_val::NoMemory;
use lk_written::{block_name, is_block_of};
use std::alloc::Global;

/// The dimensions, dimension groups and measures of a view, by the bytes of their names; of one name dimensions before
/// groups before measures, and else as declared.
pub fn fields_in<'a>(alloc: Global, items: &'a [Item]) -> Result<Vec<&'a Item>, NoMemory>
    ensures { IfOk result (λ fields. map (λ f. f.now) fields.items ≡ fields_in items.now) }
{
    let mut fields = Vec::new(alloc);
    for item in items {
        if is_field(item) {
            put_in(&mut fields, item)?;
        }
    }
    Ok(fields)
}

fn put_in<'a>(fields: &mut Vec<&'a Item>, item: &'a Item) -> Result<(), NoMemory>
    ensures { IfOk result (λ _. map (λ f. f.now) fields.new.items ≡ put_in (map (λ f. f.now) fields.old.items) item.now) }
{
    let place = place_of(fields.as_slice(), item);
    fields.insert(place, item)?;
    Ok(())
}

fn is_field(item: &Item) -> bool
    ensures { result ≡ is_field item.now }
{
    is_block_of("dimension", item)
        || is_block_of("dimension_group", item)
        || is_block_of("measure", item)
}

fn kind_rank(kind: &str) -> u8
    ensures { result ≡ kind_rank kind.now }
{
    if kind == "dimension" {
        0
    } else if kind == "dimension_group" {
        1
    } else {
        2
    }
}

fn goes_before(a: &Item, b: &Item) -> bool
    ensures { result ≡ goes_before a.now b.now }
{
    let name = block_name(a);
    let other = block_name(b);
    if name == other {
        kind_rank(a.name.as_str()) < kind_rank(b.name.as_str())
    } else {
        name < other
    }
}

// The place of the first that the item goes before, and else the end.
fn place_of(fields: &[&Item], item: &Item) -> usize
    ensures first { result ≡ position_or_len (goes_before item.now) (map (λ f. f.now) fields.now) }
    ensures within { result ≤ length fields.now }
{
    for place in 0..fields.len() {
        if goes_before(item, fields[place]) {
            return place;
        }
    }
    fields.len()
}
