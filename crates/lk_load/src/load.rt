ghost use Rattle.std.specs.Prelude.{◌≡◌, IfOk};
ghost use Rattle.lk_val.specs.Memory.{IsUnlessMemory};
ghost use Rattle.lk_table.specs.Contents.{content_of};
ghost use Rattle.lk_table.specs.Faults.{is_no_memory};
ghost use Rattle.lk_load.specs.Loading.{table_loaded};

use lk_table::{Batch, BatchFault, TableVersion, apply, batch_text, read_batch};
use lk_types::TableDef;
use lk_val::{Bytes, NoMemory};
use std::alloc::Global;
use std::marker::Model;

/// A batch that was read for a table and loaded into it. Its canonical text is written when it is asked for, so that a
/// load may be refused before. Clauses see the table after the load, the number of the batch's rows and that text. (lookd)
#[derive(Drop)]
pub struct LoadedBatch<'a> {
    def: &'a TableDef,
    version: TableVersion,
    batch: Batch,
}

impl<'a> Model for LoadedBatch<'a> {
    ghost use Rattle.std.specs.Prelude.{length};
    ghost use Rattle.lk_table.specs.BatchTexts.{batch_text};
    ghost use Rattle.lk_load.specs.Loading.{LoadedTable};

    ghost Value = { LoadedTable };

    ghost view = { λ loaded. record {
      version = loaded.version;
      rows = length loaded.batch.rows;
      text = batch_text loaded.def.now loaded.batch;
    } };
}

impl LoadedBatch<'_> {
    /// The table after the load.
    pub fn version(&self) -> &TableVersion
        ensures { result.now ≡ self.now.version }
    {
        &self.version
    }

    /// The table after the load, without the batch.
    pub fn into_version(self) -> TableVersion
        ensures { result ≡ self.entry.version }
    {
        let LoadedBatch {
            def: _,
            version,
            batch: _,
        } = self;
        version
    }

    /// How many rows the batch has.
    pub fn rows(&self) -> u32
        ensures { result ≡ self.now.rows }
    {
        self.batch.len()
    }

    /// The canonical text of the batch.
    pub fn text(&self, alloc: Global) -> Result<Bytes, NoMemory>
        ensures { IfOk result (λ text. text ≡ self.now.text) }
    {
        batch_text(alloc, self.def, &self.batch)
    }
}

/// The table after a text is read as a batch (its first fault is L3, and only then L5) and its rows come behind the
/// table's, which are shared, or in their place (L4). (lookd)
pub fn load_text<'a>(
    alloc: Global,
    def: &'a TableDef,
    version: &TableVersion,
    text: &[u8],
    replace: bool,
) -> Result<LoadedBatch<'a>, BatchFault>
    requires { version.now ≡ content_of def.now version.now.rows }
    ensures { IsUnlessMemory is_no_memory result (table_loaded def.now version.now.rows text.now replace) }
{
    let batch = read_batch(alloc, def, text)?;
    let version = apply(alloc, version, &batch, replace)?;
    Ok(LoadedBatch {
        def,
        version,
        batch,
    })
}
