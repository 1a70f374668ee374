// What is kept after builds of some datagroups, part by part.

ghost use Rattle.std.specs.Prelude.{◌≡◌, ◌<◌, ◌∷◌, [], IfOk, flat_map, length, map};
ghost use Rattle.std.specs.List.{enumerate_from};
ghost use Rattle.lk_val.specs.Memory.{IsUnlessMemory};
ghost use Rattle.lk_semantics.specs.Derived.{explore_at};
ghost use Rattle.lk_semantics.specs.Joins.{numbers_below};
ghost use Rattle.lk_semantics.specs.Rollups.{derived_at, rollup_at};
ghost use Rattle.lk_table.specs.Contents.{rows_of_each};
ghost use Rattle.lk_rollup.specs.Builds.{are_many_cells, is_no_memory};
ghost use Rattle.lk_keeps.specs.Anew.{derived_anew, kept_anew, rollup_anew, tables_anew};
ghost use Rattle.lk_keeps.specs.Keeps.{persists, sources_over};
ghost use Rattle.lk_keeps.specs.Large.{large_rollups, large_tables};
ghost use Rattle.lk_keeps.specs.Steps.{large_among, large_persisted, rollups_anew, unless_any};
ghost use Rattle.lk_keeps.specs.Wanted.{IsReady};

use crate::keeps::{Keeps, SharedRollup};
use crate::numbers::{is_of, number_of};
use lk_fill::{has_number, wanted_rows_are_read};
use lk_rollup::{BuildFault, are_many_cells, build, derived_of, explore_of, rollup_of};
use lk_table::{DerivedRows, TableSet, TableVersion, share_tables};
use lk_types::{Derived, Explore, Model, Rollup};
use lk_val::{Items, NoMemory};
use std::alloc::Global;

/// Builds of some datagroups of a model over tables that have the rows which these read, and what was kept before.
#[derive(Drop)]
pub(crate) struct Making<'a> {
    pub(crate) model: &'a Model,
    pub(crate) groups: &'a [u32],
    pub(crate) set: &'a TableSet,
    pub(crate) keeps: &'a Keeps,
}

impl<'a> Making<'a> {
    /// What is kept then. `tables` are the stored tables.
    pub(crate) fn kept(&self, alloc: Global, tables: &[TableVersion]) -> Result<Keeps, BuildFault>
        requires ready { IsReady self.now.model.now self.now.groups.now self.now.set.now }
        requires tables { rows_of_each tables.now ≡ self.now.set.now.stored }
        ensures { IsUnlessMemory is_no_memory result
            (kept_anew self.now.model.now self.now.groups.now self.now.set.now.stored self.now.keeps.now) }
    {
        self.test_tables(alloc)?;
        let rollups = self.rollups(alloc)?;
        let derived = self.derived(alloc)?;
        let tables = self.tables(alloc, tables)?;
        Ok(Keeps {
            tables,
            rollups,
            derived,
        })
    }

    // The first derived table of these datagroups that is too large is refused by name (G2).
    fn test_tables(&self, alloc: Global) -> Result<(), BuildFault>
        requires ready { IsReady self.now.model.now self.now.groups.now self.now.set.now }
        ensures { IsUnlessMemory is_no_memory result (unless_any tt
            (large_tables self.now.model.now self.now.groups.now (sources_over self.now.model.now self.now.set.now.stored))) }
    {
        for place in 0..self.model.derived.len() {
            self.test_table(alloc, number_of(place)?)?;
        }
        Ok(())
    }

    fn test_table(&self, alloc: Global, number: u32) -> Result<(), BuildFault>
        requires ready { IsReady self.now.model.now self.now.groups.now self.now.set.now }
        requires number { number < length self.now.model.now.derived }
        ensures { IsUnlessMemory is_no_memory result (unless_any tt
            (large_persisted self.now.groups.now (sources_over self.now.model.now self.now.set.now.stored)
            ((number, derived_at self.now.model.now number) ∷ []))) }
    {
        let table = derived_of(self.model, number);
        if is_of(self.groups, table.datagroup) {
            let rows = self.set.derived(number).len();
            if are_many_cells(rows, table.columns.len()) {
                return Err(BuildFault::G2(table.name.copy(alloc)?));
            }
        }
        Ok(())
    }

    // The rows of the aggregate tables by explore. The first build that is too large is refused by name (G2).
    fn rollups(&self, alloc: Global) -> Result<Items<Items<SharedRollup>>, BuildFault>
        requires ready { IsReady self.now.model.now self.now.groups.now self.now.set.now }
        ensures { IsUnlessMemory is_no_memory result (unless_any
            (map (rollups_anew self.now.model.now self.now.groups.now self.now.set.now.stored self.now.keeps.now)
            (enumerate_from 0 self.now.model.now.explores))
            (flat_map (large_rollups self.now.groups.now (sources_over self.now.model.now self.now.set.now.stored))
            self.now.model.now.explores)) }
    {
        let mut rollups = Items::new(alloc);
        for place in 0..self.model.explores.len() {
            let more = self.rollups_of(alloc, number_of(place)?)?;
            rollups.push(more)?;
        }
        Ok(rollups)
    }

    // The rows of the aggregate tables of an explore.
    fn rollups_of(&self, alloc: Global, explore: u32) -> Result<Items<SharedRollup>, BuildFault>
        requires ready { IsReady self.now.model.now self.now.groups.now self.now.set.now }
        requires explore { explore < length self.now.model.now.explores }
        ensures { IsUnlessMemory is_no_memory result (unless_any
            (rollups_anew self.now.model.now self.now.groups.now self.now.set.now.stored self.now.keeps.now
            (explore, explore_at self.now.model.now explore))
            (large_rollups self.now.groups.now (sources_over self.now.model.now self.now.set.now.stored)
            (explore_at self.now.model.now explore))) }
    {
        let mut rollups = Items::new(alloc);
        for place in 0..explore_of(self.model, explore).rollups.len() {
            let rollup = self.rollup(alloc, explore, number_of(place)?)?;
            rollups.push(rollup)?;
        }
        Ok(rollups)
    }

    // The rows of an aggregate table: built where its datagroup is one of these, and else what was kept of it.
    fn rollup(&self, alloc: Global, explore: u32, number: u32) -> Result<SharedRollup, BuildFault>
        requires ready { IsReady self.now.model.now self.now.groups.now self.now.set.now }
        requires explore { explore < length self.now.model.now.explores }
        requires rollup { number < length (explore_at self.now.model.now explore).rollups }
        ensures { IsUnlessMemory is_no_memory result (unless_any
            (rollup_anew self.now.model.now self.now.groups.now self.now.set.now.stored self.now.keeps.now explore
            (explore_at self.now.model.now explore) (number, rollup_at (explore_at self.now.model.now explore) number))
            (large_among self.now.groups.now (sources_over self.now.model.now self.now.set.now.stored)
            (explore_at self.now.model.now explore) (rollup_at (explore_at self.now.model.now explore) number ∷ []))) }
    {
        wanted_rows_are_read();
        let rollup = rollup_of(explore_of(self.model, explore), number);
        if has_number(self.groups, rollup.datagroup) {
            let rows = build(alloc, self.model, explore, number, self.set)?;
            Ok(SharedRollup::new(alloc, rows)?)
        } else {
            Ok(self.keeps.share_rollup(alloc, explore, number)?)
        }
    }

    // The rows of the persisted derived tables by number.
    fn derived(&self, alloc: Global) -> Result<Items<DerivedRows>, NoMemory>
        requires ready { IsReady self.now.model.now self.now.groups.now self.now.set.now }
        ensures { IfOk result (λ derived. derived
            ≡ map (derived_anew self.now.model.now self.now.groups.now self.now.set.now.stored self.now.keeps.now)
            (enumerate_from 0 self.now.model.now.derived)) }
    {
        let mut derived = Items::new(alloc);
        for place in 0..self.model.derived.len() {
            derived.push(self.rows(alloc, number_of(place)?)?)?;
        }
        Ok(derived)
    }

    // The rows of a derived table that one of these datagroups persists, and else what was kept of it.
    fn rows(&self, alloc: Global, number: u32) -> Result<DerivedRows, NoMemory>
        requires ready { IsReady self.now.model.now self.now.groups.now self.now.set.now }
        requires number { number < length self.now.model.now.derived }
        ensures { IfOk result (λ rows. rows
            ≡ derived_anew self.now.model.now self.now.groups.now self.now.set.now.stored self.now.keeps.now
            (number, derived_at self.now.model.now number)) }
    {
        if is_of(self.groups, derived_of(self.model, number).datagroup) {
            self.set.share_derived(alloc, number)
        } else {
            self.keeps.share_derived(alloc, number)
        }
    }

    // The stored tables of the builds by datagroup.
    fn tables(
        &self,
        alloc: Global,
        tables: &[TableVersion],
    ) -> Result<Items<Items<TableVersion>>, NoMemory>
        ensures { IfOk result (λ all. map rows_of_each all
            ≡ map (tables_anew self.now.model.now self.now.groups.now (rows_of_each tables.now) self.now.keeps.now)
            (numbers_below (length self.now.model.now.datagroups))) }
    {
        let mut all = Items::new(alloc);
        for place in 0..self.model.datagroups.len() {
            all.push(self.tables_of(alloc, number_of(place)?, tables)?)?;
        }
        Ok(all)
    }

    // The stored tables of a datagroup's build: these where it is one of these datagroups and persists a derived table.
    fn tables_of(
        &self,
        alloc: Global,
        group: u32,
        tables: &[TableVersion],
    ) -> Result<Items<TableVersion>, NoMemory>
        ensures { IfOk result (λ shared. rows_of_each shared
            ≡ tables_anew self.now.model.now self.now.groups.now (rows_of_each tables.now) self.now.keeps.now group) }
    {
        if !has_number(self.groups, group) {
            return share_tables(alloc, self.keeps.tables(group));
        }
        if !persists(self.model, group) {
            return Ok(Items::new(alloc));
        }
        share_tables(alloc, tables)
    }
}

// Whether a datagroup persists a derived table.
fn persists(m: &Model, group: u32) -> bool
    ensures { result ≡ persists m.now group }
{
    for table in m.derived.as_slice() {
        if is_of(&[group], table.datagroup) {
            return true;
        }
    }
    false
}
