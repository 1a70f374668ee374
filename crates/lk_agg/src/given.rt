ghost use Rattle.std.specs.Prelude.{◌≡◌, map, option_map, slice_index_or};
ghost use Rattle.lk_val.specs.ValueRefs.{value_of_ref};
ghost use Rattle.lk_semantics.specs.Measures.{no_entry};
ghost use Rattle.lk_agg.specs.Given.{given_cells, key_value_of};

use lk_types::KeyValue;
use lk_val::{Value, ValueRef};

/// What a row gives to a measure, lent: as `KeyValue`, but key and value stay where they stand.
#[derive(Clone, Copy)]
pub struct KeyRef<'a> {
    pub key: Option<ValueRef<'a>>,
    pub value: ValueRef<'a>,
    pub counts: bool,
}

// What a row gives to each measure, owned or lent.
#[derive(Clone, Copy)]
pub(crate) enum Given<'a> {
    Owned(&'a [KeyValue]),
    Lent(&'a [KeyRef<'a>]),
}

// What a row gives to the measure at a place. Past the last it gives nothing that counts.
pub(crate) fn given_at<'a>(given: Given<'a>, place: usize) -> KeyRef<'a>
    ensures { key_value_of result ≡ slice_index_or (given_cells given.entry) place no_entry }
{
    match given {
        Given::Owned(cells) => owned_at(cells, place),
        Given::Lent(cells) => lent_at(cells, place),
    }
}

fn owned_at(cells: &[KeyValue], place: usize) -> KeyRef<'_>
    ensures { key_value_of result ≡ slice_index_or cells.now place no_entry }
{
    if place < cells.len() {
        lend(&cells[place])
    } else {
        nothing()
    }
}

fn lent_at<'a>(cells: &'a [KeyRef<'a>], place: usize) -> KeyRef<'a>
    ensures { key_value_of result ≡ slice_index_or (map key_value_of cells.now) place no_entry }
{
    if place < cells.len() {
        cells[place]
    } else {
        nothing()
    }
}

fn lend(given: &KeyValue) -> KeyRef<'_>
    ensures { key_value_of result ≡ given.now }
{
    KeyRef {
        key: lend_key(&given.key),
        value: given.value.as_ref(),
        counts: given.counts,
    }
}

fn lend_key(key: &Option<Value>) -> Option<ValueRef<'_>>
    ensures { option_map value_of_ref result ≡ key.now }
{
    match key {
        Some(key) => Some(key.as_ref()),
        None => None,
    }
}

fn nothing<'a>() -> KeyRef<'a>
    ensures { key_value_of result ≡ no_entry }
{
    KeyRef {
        key: None,
        value: ValueRef::Null,
        counts: false,
    }
}
