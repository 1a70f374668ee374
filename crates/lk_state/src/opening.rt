ghost use Rattle.std.specs.Prelude.{◌≡◌, ◌<◌, Err, IfErr, IfOk, Ok, Some, false, length, map};
ghost use Rattle.std.specs.Arc.{arc_value};
ghost use Rattle.lk_val.specs.Memory.{IsUnlessMemory, Unless};
ghost use Rattle.lk_state.specs.Limits.{is_over};
ghost use Rattle.lk_state.specs.Openings.{AreSeeds, all_appended, all_seeded, appended, appended_to, empty_tables, is_no_memory, opened, seeded};
ghost use Rattle.lk_state.specs.States.{AreTables};
ghost use Rattle.lk_state.specs.declared.fault.OpenFault.TheVariants as fault;

use crate::fault::OpenFault;
use crate::limits::is_over;
use crate::tables::{compacted, load_into, set_table, table_named};
use lk_ledger::{Chunk, Kept, KeptId};
use lk_load::loads_keep_tables_valid;
use lk_table::{BatchFault, TableVersion};
use lk_types::TableDef;
use lk_val::{Bytes, Items, NoMemory, Text};
use std::alloc::Global;
use std::sync::Arc;

/// The tables of a schema over what a store kept, within the limits: its batches in their order, and then each seed, a batch in
/// place of the rows of the table of a number. The faults are those of the definition; none is the store's. (lookd)
pub fn tables_over(
    alloc: Global,
    defs: &[TableDef],
    kept: &Kept,
    seeds: &[(u32, Bytes)],
) -> Result<Items<TableVersion>, OpenFault>
    requires { AreSeeds defs.now seeds.now }
    ensures ok { IfOk result (λ tables. opened defs.now kept.now seeds.now
        ≡ Ok (record { number = kept.now.number; tables = tables; ids = kept.now.ids })) }
    ensures err { IfErr result (λ why. Unless (is_no_memory why) (Err why ≡ opened defs.now kept.now seeds.now)) }
    ensures tables { IfOk result (AreTables defs.now) }
    ensures small { IfOk result (λ tables.
        is_over (record { number = kept.now.number; tables = tables; ids = kept.now.ids }) ≡ false) }
    ensures never { IfErr result (λ why. why ≡ fault.Store → ⊥) }
{
    let tables = empty_tables(alloc, defs)?;
    let tables = all_appended(alloc, defs, tables, kept.chunks.as_slice())?;
    let tables = all_seeded(alloc, defs, tables, seeds)?;
    if is_over(kept.number, tables.as_slice(), kept.ids.len()) {
        return Err(OpenFault::Full);
    }
    Ok(tables)
}

/// The loads that a store kept, in their order, each to be shared. (lookd)
pub fn loads_of(alloc: Global, kept: Kept) -> Result<Items<Arc<KeptId>>, NoMemory>
    ensures { IfOk result (λ loads. map arc_value loads ≡ kept.ids) }
{
    let Kept {
        number: _,
        chunks: _,
        ids,
    } = kept;
    each_shared(alloc, ids)
}

fn each_shared(alloc: Global, ids: Items<KeptId>) -> Result<Items<Arc<KeptId>>, NoMemory>
    ensures { IfOk result (λ loads. map arc_value loads ≡ ids) }
{
    let mut loads = Items::new(alloc);
    for id in ids.into_vec() {
        loads.push(Arc::new(alloc, id)?)?;
    }
    Ok(loads)
}

// The tables without rows.
fn empty_tables(alloc: Global, defs: &[TableDef]) -> Result<Items<TableVersion>, NoMemory>
    ensures value { IfOk result (λ tables. tables ≡ empty_tables defs.now) }
    ensures are { IfOk result (AreTables defs.now) }
{
    loads_keep_tables_valid();
    let mut tables = Items::new(alloc);
    for def in defs {
        tables.push(TableVersion::empty(alloc, def)?)?;
    }
    Ok(tables)
}

// The tables with all kept batches appended.
fn all_appended(
    alloc: Global,
    defs: &[TableDef],
    tables: Items<TableVersion>,
    chunks: &[Chunk],
) -> Result<Items<TableVersion>, OpenFault>
    requires { AreTables defs.now tables }
    ensures value { IsUnlessMemory is_no_memory result (all_appended defs.now tables chunks.now) }
    ensures tables { IfOk result (AreTables defs.now) }
    ensures never { IfErr result (λ why. why ≡ fault.Store → ⊥) }
{
    let mut tables = tables;
    for chunk in chunks {
        tables = append_chunk(alloc, defs, tables, chunk)?;
    }
    Ok(tables)
}

fn append_chunk(
    alloc: Global,
    defs: &[TableDef],
    tables: Items<TableVersion>,
    chunk: &Chunk,
) -> Result<Items<TableVersion>, OpenFault>
    requires { AreTables defs.now tables }
    ensures value { IsUnlessMemory is_no_memory result (appended defs.now tables chunk.now) }
    ensures tables { IfOk result (AreTables defs.now) }
    ensures never { IfErr result (λ why. why ≡ fault.Store → ⊥) }
{
    match table_named(defs, &chunk.table) {
        Some(number) => append_at(alloc, defs, tables, number, chunk),
        None => Err(OpenFault::Unread(
            chunk.table.copy(alloc)?,
            BatchFault::L3 {
                row: 0,
                column: Text::new(alloc),
            },
        )),
    }
}

// The tables with a kept batch appended to that of a number.
fn append_at(
    alloc: Global,
    defs: &[TableDef],
    tables: Items<TableVersion>,
    number: usize,
    chunk: &Chunk,
) -> Result<Items<TableVersion>, OpenFault>
    requires are { AreTables defs.now tables }
    requires within { number < length defs.now }
    ensures value { IsUnlessMemory is_no_memory result (appended_to defs.now tables chunk.now (Some number)) }
    ensures tables { IfOk result (AreTables defs.now) }
    ensures never { IfErr result (λ why. why ≡ fault.Store → ⊥) }
{
    match load_into(
        alloc,
        defs,
        tables.as_slice(),
        number,
        chunk.body.as_slice(),
        false,
    ) {
        Ok(loaded) => {
            let version = compacted(alloc, loaded.into_version())?;
            Ok(set_table(defs, tables, number, version))
        }
        Err(BatchFault::NoMemory) => Err(OpenFault::NoMemory),
        Err(fault) => Err(OpenFault::Unread(chunk.table.copy(alloc)?, fault)),
    }
}

// The tables with all seeds in place of their rows.
fn all_seeded(
    alloc: Global,
    defs: &[TableDef],
    tables: Items<TableVersion>,
    seeds: &[(u32, Bytes)],
) -> Result<Items<TableVersion>, OpenFault>
    requires tables { AreTables defs.now tables }
    requires seeds { AreSeeds defs.now seeds.now }
    ensures value { IsUnlessMemory is_no_memory result (all_seeded defs.now tables seeds.now) }
    ensures tables { IfOk result (AreTables defs.now) }
    ensures never { IfErr result (λ why. why ≡ fault.Store → ⊥) }
{
    let mut tables = tables;
    for seed in seeds {
        tables = put_seed(alloc, defs, tables, seed.0 as usize, &seed.1)?;
    }
    Ok(tables)
}

fn put_seed(
    alloc: Global,
    defs: &[TableDef],
    tables: Items<TableVersion>,
    number: usize,
    body: &Bytes,
) -> Result<Items<TableVersion>, OpenFault>
    requires tables { AreTables defs.now tables }
    requires within { number < length defs.now }
    ensures value { IsUnlessMemory is_no_memory result (seeded defs.now tables (number, body.now)) }
    ensures tables { IfOk result (AreTables defs.now) }
    ensures never { IfErr result (λ why. why ≡ fault.Store → ⊥) }
{
    match load_into(
        alloc,
        defs,
        tables.as_slice(),
        number,
        body.as_slice(),
        true,
    ) {
        Ok(loaded) => Ok(set_table(defs, tables, number, loaded.into_version())),
        Err(BatchFault::NoMemory) => Err(OpenFault::NoMemory),
        Err(fault) => Err(OpenFault::Seed(defs[number].name.copy(alloc)?, fault)),
    }
}
