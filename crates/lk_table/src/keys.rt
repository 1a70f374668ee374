ghost use Rattle.std.specs.Prelude.{◌≡◌, ◌||◌, IfOk, OnOk};
ghost use Rattle.std.specs.List.{range_with_len};
ghost use Rattle.lk_val.specs.Sets.{has};
ghost use Rattle.lk_val.specs.Values.{is_same, value_cmp};
ghost use Rattle.lk_val.specs.ValueRefs.{value_of_ref};
ghost use Rattle.lk_val.specs.declared.value.Value.{Value as TableValue};
ghost use Rattle.lk_table.specs.Contents.{keys_at};
ghost use Rattle.lk_table.specs.KeySets.{HasRepeated, IsKeyOrder, IsOrdered, row_key};

use crate::block::Block;
use lk_val::{NoMemory, Value, ValueRef};
use std::alloc::Global;
use std::cmp::Ordering;
use std::collections::BTreeSet;
use std::marker::Model;

/// Keys that stand twice, to be found in time log n. Clauses see them as a list.
#[derive(Drop)]
pub(crate) struct RepeatedKeys {
    set: BTreeSet<Value>,
}

impl Model for RepeatedKeys {
    ghost use Rattle.std.specs.Prelude.{List};
    ghost use Rattle.lk_val.specs.declared.value.Value.{Value as TableValue};

    ghost Value = { List TableValue };

    ghost view = { λ keys. keys.set.keys };
}

impl RepeatedKeys {
    /// Whether the key is among them. Where there are none, it takes no memory.
    pub(crate) fn has(&self, alloc: Global, key: ValueRef<'_>) -> Result<bool, NoMemory>
        ensures { IfOk result (λ found. found ≡ has value_cmp (value_of_ref key.entry) self.now) }
    {
        if self.set.is_empty() {
            return Ok(false);
        }
        let key = key.to_value(alloc)?;
        Ok(self.set.contains(&key))
    }

    // Adds a key, unless it is among them.
    fn insert(&mut self, key: Value) -> Result<(), NoMemory>
        ensures { OnOk result ((k : TableValue) → has value_cmp k self.new ≡ (is_same key k || has value_cmp k self.old)) }
    {
        self.set.insert(key)?;
        Ok(())
    }
}

/// The numbers of a block's rows in the order of their keys, found in time n log n; none where it has no key column.
pub(crate) fn rows_by_key(alloc: Global, block: &Block) -> Result<Vec<u32>, NoMemory>
    ensures { IfOk result (λ order. IsOrdered block.now.key block.now.rows order.items) }
{
    match block.key() {
        Some(column) => rows_by(alloc, block, column),
        None => Ok(Vec::new(alloc)),
    }
}

fn rows_by(alloc: Global, block: &Block, column: u32) -> Result<Vec<u32>, NoMemory>
    ensures { IfOk result (λ order. IsKeyOrder column block.now.rows order.items) }
{
    let mut order = row_numbers(alloc, block.len())?;
    order.sort_unstable_by(|one, other| cmp_keys(block, column, *one, *other));
    Ok(order)
}

fn row_numbers(alloc: Global, count: u32) -> Result<Vec<u32>, NoMemory>
    ensures { IfOk result (λ rows. rows.items ≡ range_with_len 0 count) }
{
    let mut rows = Vec::with_capacity(alloc, count as usize)?;
    for row in 0..count {
        rows.push(row)?;
    }
    Ok(rows)
}

fn cmp_keys(block: &Block, column: u32, one: u32, other: u32) -> Ordering
    ensures { result ≡ value_cmp (row_key column block.now.rows one) (row_key column block.now.rows other) }
{
    key_in(block, column, one).cmp(key_in(block, column, other))
}

// The key of a row, where it stands; null where there is no such row.
fn key_in(block: &Block, column: u32, row: u32) -> ValueRef<'_>
    ensures { value_of_ref result ≡ row_key column block.now.rows row }
{
    if row < block.len() {
        block.cell(row, column)
    } else {
        ValueRef::Null
    }
}

/// Whether a row of the block has the key, by the rows in the order of their keys.
pub(crate) fn is_key_of_row(block: &Block, column: u32, order: &[u32], key: ValueRef<'_>) -> bool
    requires { IsKeyOrder column block.now.rows order.now }
    ensures { result ≡ has value_cmp (value_of_ref key.entry) (keys_at column block.now.rows) }
{
    match order.binary_search_by(|row| key_in(block, column, *row).cmp(key)) {
        Ok(_) => true,
        Err(_) => false,
    }
}

/// The keys that stand twice among the block's rows, by the rows in the order of their keys.
pub(crate) fn repeated_keys(
    alloc: Global,
    block: &Block,
    column: u32,
    order: &[u32],
) -> Result<RepeatedKeys, NoMemory>
    requires { IsKeyOrder column block.now.rows order.now }
    ensures { IfOk result (λ again. HasRepeated again (keys_at column block.now.rows)) }
{
    let mut again = RepeatedKeys {
        set: BTreeSet::new(alloc),
    };
    for i in 1..order.len() {
        let key = key_in(block, column, order[i]);
        if key_in(block, column, order[i - 1]).cmp(key) == Ordering::Equal {
            again.insert(key.to_value(alloc)?)?;
        }
    }
    Ok(again)
}
