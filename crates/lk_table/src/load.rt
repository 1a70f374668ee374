ghost use Rattle.std.specs.Prelude.{◌≡◌, ◌||◌, IfOk, OnOk, Some, false};
ghost use Rattle.std.specs.Arc.{arc_value};
ghost use Rattle.std.specs.List.{All, list_any};
ghost use Rattle.lk_val.specs.Memory.{IsUnlessMemory};
ghost use Rattle.lk_val.specs.Sets.{has};
ghost use Rattle.lk_val.specs.ValueRefs.{value_of_ref};
ghost use Rattle.lk_val.specs.Values.{value_cmp};
ghost use Rattle.lk_table.specs.Columns.{IsBuilt, built};
ghost use Rattle.lk_table.specs.Contents.{keys_at, keys_of};
ghost use Rattle.lk_table.specs.Loads.{first_conflict, loaded};
ghost use Rattle.lk_table.specs.Versions.{followed, rows_of, IsShaped};
ghost use Rattle.lk_table.specs.Faults.{is_no_memory};

use crate::batch::Batch;
use crate::block::Block;
use crate::builder::BlockBuilder;
use crate::fault::BatchFault;
use crate::keys::RepeatedKeys;
use crate::part::Part;
use crate::version::TableVersion;
use lk_val::{NoMemory, Value, ValueRef};
use std::alloc::Global;
use std::sync::Arc;

/// The table after a batch of its own columns is loaded: the batch's rows behind the table's, which are shared, or in
/// their place. The first key, in the order of the batch's rows, that stands twice in the batch or is held is L4. More
/// rows than 32 bits count are want of memory. (lookd)
pub fn apply(
    alloc: Global,
    t: &TableVersion,
    b: &Batch,
    replace: bool,
) -> Result<TableVersion, BatchFault>
    requires { IsShaped t.now.kinds t.now.key b.now }
    ensures value { IsUnlessMemory is_no_memory result (loaded t.now b.now replace) }
    ensures shape { IfOk result (λ version. IsShaped t.now.kinds t.now.key version) }
{
    if replace {
        let emptied = t.emptied(alloc)?;
        append(alloc, &emptied, b.block())
    } else {
        append(alloc, t, b.block())
    }
}

fn append(alloc: Global, t: &TableVersion, block: &Arc<Block>) -> Result<TableVersion, BatchFault>
    requires { IsShaped t.now.kinds t.now.key (arc_value block.now) }
    ensures value { IsUnlessMemory is_no_memory result (loaded t.now (arc_value block.now) false) }
    ensures shape { IfOk result (λ version. IsShaped t.now.kinds t.now.key version) }
{
    let part = Part::new(alloc, block)?;
    match first_conflict(alloc, &t.parts, &part)? {
        Some(key) => Err(BatchFault::L4(key)),
        None => Ok(t.with_part(alloc, part)?),
    }
}

// The first key of a part that stands twice in it or in one of others.
fn first_conflict(alloc: Global, parts: &[Part], part: &Part) -> Result<Option<Value>, NoMemory>
    requires { All (λ held. held.key ≡ part.now.key) parts.now }
    ensures { IfOk result (λ found. found
        ≡ first_conflict (keys_of part.now.key (rows_of parts.now)) (keys_of part.now.key part.now.rows)) }
{
    match part.block().key() {
        Some(column) => conflict_at(alloc, parts, part, column),
        None => Ok(None),
    }
}

fn conflict_at(
    alloc: Global,
    parts: &[Part],
    part: &Part,
    column: u32,
) -> Result<Option<Value>, NoMemory>
    requires key { part.now.key ≡ Some column }
    requires parts { All (λ held. held.key ≡ Some column) parts.now }
    ensures { IfOk result (λ found. found
        ≡ first_conflict (keys_at column (rows_of parts.now)) (keys_at column part.now.rows)) }
{
    let again = part.repeated_keys(alloc, column)?;
    for row in 0..part.len() {
        let key = part.cell(row, column);
        if stands_again(alloc, &again, parts, key)? {
            return Ok(Some(key.to_value(alloc)?));
        }
    }
    Ok(None)
}

// Whether the key is one of those that stand twice, or a row of the parts has it.
fn stands_again(
    alloc: Global,
    again: &RepeatedKeys,
    parts: &[Part],
    key: ValueRef<'_>,
) -> Result<bool, NoMemory>
    ensures { IfOk result (λ stands. stands ≡ (has value_cmp (value_of_ref key.entry) again.now
        || list_any (λ part. has value_cmp (value_of_ref key.entry) (keys_of part.key part.rows)) parts.now)) }
{
    Ok(again.has(alloc, key)? || is_held(parts, key))
}

// Whether a row of the parts has the key.
fn is_held(parts: &[Part], key: ValueRef<'_>) -> bool
    ensures { result ≡ list_any (λ part. has value_cmp (value_of_ref key.entry) (keys_of part.key part.rows)) parts.now }
{
    parts.iter().any(|part| part.has_key(key))
}

/// The table with its rows in one part, so that looking for a row takes one step. The rows are copied.
pub fn compact(alloc: Global, t: &TableVersion) -> Result<TableVersion, NoMemory>
    ensures { IfOk result (λ version. version ≡ t.now) }
{
    let emptied = t.emptied(alloc)?;
    let block = Arc::new(alloc, joined(alloc, t)?.shrunk())?;
    let part = Part::new(alloc, &block)?;
    emptied.with_part(alloc, part)
}

// All rows of a version in one block.
fn joined(alloc: Global, t: &TableVersion) -> Result<Block, NoMemory>
    ensures { IfOk result (λ block. block ≡ t.now) }
{
    let mut rows = BlockBuilder::new(alloc, &t.kinds)?;
    add_parts(alloc, &mut rows, &t.parts)?;
    Ok(Block::built(rows, t.key))
}

// Adds the rows of the parts.
fn add_parts(alloc: Global, rows: &mut BlockBuilder, parts: &[Part]) -> Result<(), NoMemory>
    requires held { IsBuilt rows.old }
    requires kinds { All (λ part. part.kinds ≡ (built rows.old).kinds) parts.now }
    ensures held { OnOk result (IsBuilt rows.new) }
    ensures rows { OnOk result (built rows.new ≡ followed (built rows.old) (rows_of parts.now)) }
{
    for part in parts {
        add_rows(alloc, rows, part.block())?;
    }
    Ok(())
}

// Adds the rows of a block.
fn add_rows(alloc: Global, rows: &mut BlockBuilder, block: &Block) -> Result<(), NoMemory>
    requires held { IsBuilt rows.old }
    requires kinds { (built rows.old).kinds ≡ block.now.kinds }
    ensures held { OnOk result (IsBuilt rows.new) }
    ensures rows { OnOk result (built rows.new ≡ followed (built rows.old) block.now.rows) }
{
    for row in 0..block.len() {
        let cells = block.row(alloc, row)?;
        rows.push_row(&cells)?;
    }
    Ok(())
}
