ghost use Rattle.std.specs.Prelude.{◌≡◌, ◌<◌, IfOk, Some, length};
ghost use Rattle.std.specs.Arc.{arc_value};
ghost use Rattle.lk_val.specs.Sets.{has};
ghost use Rattle.lk_val.specs.ValueRefs.{value_of_ref};
ghost use Rattle.lk_val.specs.Values.{value_cmp};
ghost use Rattle.lk_table.specs.Contents.{cell_at, keys_at, keys_of, row_at};
ghost use Rattle.lk_table.specs.KeySets.{HasRepeated};

use crate::block::Block;
use crate::keys::{RepeatedKeys, is_key_of_row, repeated_keys, rows_by_key};
use lk_val::{NoMemory, ValueRef};
use std::alloc::Global;
use std::marker::Model;
use std::sync::Arc;

/// A block with the numbers of its rows in the order of their keys, both shared by the versions of a table that have
/// them. Clauses see the rows.
#[derive(Drop)]
pub(crate) struct Part {
    block: Arc<Block>,
    order: Arc<Vec<u32>>,
}

impl Model for Part {
    ghost use Rattle.std.specs.Arc.{arc_value};
    ghost use Rattle.lk_table.specs.Contents.{Content};
    ghost use Rattle.lk_table.specs.KeySets.{IsOrdered};

    ghost Value = { Content };

    ghost view = { λ part. arc_value part.block };

    ghost invariant = { λ part. IsOrdered (arc_value part.block).key (arc_value part.block).rows
        (arc_value part.order).items };
}

impl Part {
    /// A block, shared, with its rows in the order of their keys.
    pub(crate) fn new(alloc: Global, block: &Arc<Block>) -> Result<Part, NoMemory>
        ensures { IfOk result (λ part. part ≡ arc_value block.now) }
    {
        let order = rows_by_key(alloc, &**block)?;
        Ok(Part {
            block: Arc::try_clone(block)?,
            order: Arc::new(alloc, order)?,
        })
    }

    /// The part once more: nothing of it is copied.
    pub(crate) fn share(&self) -> Result<Part, NoMemory>
        ensures { IfOk result (λ part. part ≡ self.now) }
    {
        Ok(Part {
            block: Arc::try_clone(&self.block)?,
            order: Arc::try_clone(&self.order)?,
        })
    }

    /// The rows.
    pub(crate) fn block(&self) -> &Block
        ensures { result.now ≡ self.now }
    {
        &*self.block
    }

    /// The number of rows.
    pub(crate) fn len(&self) -> u32
        ensures { result ≡ length self.now.rows }
    {
        self.block().len()
    }

    /// A cell, where it stands; null where there is no such column.
    pub(crate) fn cell(&self, row: u32, column: u32) -> ValueRef<'_>
        requires { row < length self.now.rows }
        ensures { value_of_ref result ≡ cell_at (row_at self.now.rows row) column }
    {
        self.block().cell(row, column)
    }

    /// Whether a row has the key.
    pub(crate) fn has_key(&self, key: ValueRef<'_>) -> bool
        ensures { result ≡ has value_cmp (value_of_ref key.entry) (keys_of self.now.key self.now.rows) }
    {
        match self.block.key() {
            Some(column) => is_key_of_row(&*self.block, column, &*self.order, key),
            None => false,
        }
    }

    /// The keys that stand twice in its key column, which is this one.
    pub(crate) fn repeated_keys(&self, alloc: Global, column: u32) -> Result<RepeatedKeys, NoMemory>
        requires { self.now.key ≡ Some column }
        ensures { IfOk result (λ again. HasRepeated again (keys_at column self.now.rows)) }
    {
        repeated_keys(alloc, &*self.block, column, &*self.order)
    }
}
