// The tables of a schema by number, and what they hold.

ghost use Rattle.std.specs.Prelude.{◌≡◌, ◌<◌, IfOk, IfSome, length, slice_set};
ghost use Rattle.lk_val.specs.Memory.{IsUnlessMemory};
ghost use Rattle.lk_table.specs.Faults.{is_no_memory};
ghost use Rattle.lk_load.specs.Loading.{IsTable, table_loaded};
ghost use Rattle.lk_state.specs.States.{AreTables};
ghost use Rattle.lk_state.specs.Tables.{content_at, def_at, table_named};

use lk_load::{LoadedBatch, load_text, loads_keep_tables_valid};
use lk_table::{BatchFault, TableVersion, compact};
use lk_types::TableDef;
use lk_val::{Items, NoMemory, Text};
use std::alloc::Global;

// The most blocks that a table's rows stand in.
const BLOCK_LIMIT: usize = 64;

/// The number of the table of a name among those of a schema. (lookd)
pub fn table_named(defs: &[TableDef], name: &Text) -> Option<usize>
    ensures named { result ≡ table_named defs.now name.now }
    ensures within { IfSome result (λ number. number < length defs.now) }
{
    defs.iter().position(|def| def.name == *name)
}

/// The declaration of the table of a number, and what it holds.
pub(crate) fn table_in<'a, 'b>(
    defs: &'a [TableDef],
    tables: &'b [TableVersion],
    number: usize,
) -> (&'a TableDef, &'b TableVersion)
    requires are { AreTables defs.now tables.now }
    requires within { number < length defs.now }
    ensures def { result.0.now ≡ def_at defs.now number }
    ensures content { result.1.now ≡ content_at tables.now number }
    ensures table { IsTable (def_at defs.now number) (content_at tables.now number) }
{
    (&defs[number], &tables[number])
}

/// The table of a number after a text is loaded into it: a batch behind the rows that it holds, or in their place. The tables are
/// those of the schema. The faults are L3, L5 and L4. (lookd)
pub fn load_into<'a>(
    alloc: Global,
    defs: &'a [TableDef],
    tables: &[TableVersion],
    number: usize,
    text: &[u8],
    replace: bool,
) -> Result<LoadedBatch<'a>, BatchFault>
    requires are { AreTables defs.now tables.now }
    requires within { number < length defs.now }
    ensures value { IsUnlessMemory is_no_memory result
        (table_loaded (def_at defs.now number) (content_at tables.now number).rows text.now replace) }
    ensures table { IfOk result (λ loaded. IsTable (def_at defs.now number) loaded.version) }
{
    loads_keep_tables_valid();
    let (def, version) = table_in(defs, tables, number);
    load_text(alloc, def, version, text, replace)
}

/// The same rows, in one block where they stood in more than 64. (lookd)
pub fn compacted(alloc: Global, version: TableVersion) -> Result<TableVersion, NoMemory>
    ensures { IfOk result (λ compacted. compacted ≡ version) }
{
    if version.blocks() <= BLOCK_LIMIT {
        return Ok(version);
    }
    compact(alloc, &version)
}

/// The tables of a schema with another version of that of a number. (lookd)
pub fn set_table(
    defs: &[TableDef],
    tables: Items<TableVersion>,
    number: usize,
    version: TableVersion,
) -> Items<TableVersion>
    requires are { AreTables defs.now tables }
    requires within { number < length defs.now }
    requires is { IsTable (def_at defs.now number) version }
    ensures set { result ≡ slice_set tables number version }
    ensures are { AreTables defs.now result }
{
    let all = set_item(tables.into_vec(), number, version);
    Items::from_vec(all)
}

// The tables with another one at a place.
fn set_item(mut tables: Vec<TableVersion>, place: usize, version: TableVersion) -> Vec<TableVersion>
    ensures { result.items ≡ slice_set tables.items place version }
{
    if place < tables.len() {
        tables[place] = version;
    }
    tables
}
