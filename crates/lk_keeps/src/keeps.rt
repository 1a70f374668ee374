// What is kept of builds, shared by those that keep it.

ghost use Rattle.std.specs.Prelude.{◌≡◌, [], IfOk, slice_index_or};
ghost use Rattle.lk_table.specs.Contents.{rows_of_each};
ghost use Rattle.lk_keeps.specs.Keeps.{no_keeps};

use lk_rollup::RollupRows;
use lk_table::{DerivedRows, TableVersion};
use lk_types::Partial;
use lk_val::{Items, NoMemory, Value};
use std::alloc::Global;
use std::marker::Model;
use std::sync::Arc;

/// What is kept of the builds of datagroups: of each that persists a derived table the stored tables of its build, the rows of each
/// aggregate table, and those of each persisted derived table. (lookd)
#[derive(Drop)]
pub struct Keeps {
    // By datagroup.
    pub(crate) tables: Items<Items<TableVersion>>,
    // By explore, and by their numbers there.
    pub(crate) rollups: Items<Items<SharedRollup>>,
    // By number; none of a table that is computed for each query.
    pub(crate) derived: Items<DerivedRows>,
}

impl Model for Keeps {
    ghost use Rattle.std.specs.Prelude.{map};
    ghost use Rattle.lk_table.specs.Contents.{rows_of_each};
    ghost use Rattle.lk_keeps.specs.Keeps.{Keeps};

    ghost Value = { Keeps };

    ghost view = { λ keeps. record {
      tables = map rows_of_each keeps.tables;
      rollups = keeps.rollups;
      derived = keeps.derived;
    } };
}

impl Keeps {
    /// Nothing is kept.
    pub fn none(alloc: Global) -> Keeps
        ensures { result ≡ no_keeps }
    {
        Keeps {
            tables: Items::new(alloc),
            rollups: Items::new(alloc),
            derived: Items::new(alloc),
        }
    }

    /// The stored tables of a datagroup's build; none where it persists no derived table.
    pub fn tables(&self, group: u32) -> &[TableVersion]
        ensures { rows_of_each result.now ≡ slice_index_or self.now.tables group [] }
    {
        match self.tables.as_slice().get(group as usize) {
            Some(tables) => tables.as_slice(),
            None => &[],
        }
    }

    /// The rows of a persisted derived table, shared; none of any other.
    pub fn share_derived(&self, alloc: Global, number: u32) -> Result<DerivedRows, NoMemory>
        ensures { IfOk result (λ rows. rows ≡ slice_index_or self.now.derived number []) }
    {
        match self.derived.as_slice().get(number as usize) {
            Some(rows) => rows.share(),
            None => DerivedRows::new(alloc, Items::new(alloc)),
        }
    }

    /// The rows of an aggregate table of the explore of a number; none where none are kept.
    pub fn rollup(&self, explore: u32, number: u32) -> &[(Items<Value>, Items<Partial>)]
        ensures { result.now ≡ slice_index_or (slice_index_or self.now.rollups explore []) number [] }
    {
        match self.rollups.as_slice().get(explore as usize) {
            Some(rollups) => rows_at(rollups.as_slice(), number),
            None => &[],
        }
    }

    /// The rows of an aggregate table of the explore of a number, shared; none where none are kept.
    pub(crate) fn share_rollup(
        &self,
        alloc: Global,
        explore: u32,
        number: u32,
    ) -> Result<SharedRollup, NoMemory>
        ensures { IfOk result (λ rollup. rollup ≡ slice_index_or (slice_index_or self.now.rollups explore []) number []) }
    {
        match self.rollups.as_slice().get(explore as usize) {
            Some(rollups) => share_at(alloc, rollups.as_slice(), number),
            None => SharedRollup::none(alloc),
        }
    }
}

fn rows_at(rollups: &[SharedRollup], number: u32) -> &[(Items<Value>, Items<Partial>)]
    ensures { result.now ≡ slice_index_or rollups.now number [] }
{
    match rollups.get(number as usize) {
        Some(rollup) => rollup.rows(),
        None => &[],
    }
}

fn share_at(alloc: Global, rollups: &[SharedRollup], number: u32) -> Result<SharedRollup, NoMemory>
    ensures { IfOk result (λ rollup. rollup ≡ slice_index_or rollups.now number []) }
{
    match rollups.get(number as usize) {
        Some(rollup) => rollup.share(),
        None => SharedRollup::none(alloc),
    }
}

/// The rows of an aggregate table, shared by those that keep them. Clauses see the rows.
#[derive(Drop)]
pub(crate) struct SharedRollup {
    rollup: Arc<RollupRows>,
}

impl Model for SharedRollup {
    ghost use Rattle.std.specs.Prelude.{List};
    ghost use Rattle.std.specs.Arc.{arc_value};
    ghost use Rattle.lk_regroup_laws.specs.Regroup.{RollupRow};
    ghost use Rattle.lk_rollup.specs.declared.building.RollupRows.{RollupRows};

    ghost Value = { List RollupRow };

    ghost view = { λ shared. (arc_value shared.rollup).rows };
}

impl SharedRollup {
    /// These rows.
    pub(crate) fn new(alloc: Global, rollup: RollupRows) -> Result<SharedRollup, NoMemory>
        ensures { IfOk result (λ shared. shared ≡ rollup.rows) }
    {
        Ok(SharedRollup {
            rollup: Arc::new(alloc, rollup)?,
        })
    }

    /// No rows.
    pub(crate) fn none(alloc: Global) -> Result<SharedRollup, NoMemory>
        ensures { IfOk result (λ shared. shared ≡ []) }
    {
        let rows = Items::new(alloc);
        SharedRollup::new(alloc, RollupRows { rows })
    }

    /// The rows.
    pub(crate) fn rows(&self) -> &[(Items<Value>, Items<Partial>)]
        ensures { result.now ≡ self.now }
    {
        self.rollup.rows.as_slice()
    }

    /// The rows once more: nothing of them is copied.
    pub(crate) fn share(&self) -> Result<SharedRollup, NoMemory>
        ensures { IfOk result (λ shared. shared ≡ self.now) }
    {
        Ok(SharedRollup {
            rollup: Arc::try_clone(&self.rollup)?,
        })
    }
}
