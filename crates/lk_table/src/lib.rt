//! Tables: batches of rows are read, appended and replaced, and rows are held in columns that versions share.
#![tactic(auto)]

mod amount;
mod batch;
mod block;
mod builder;
mod cells;
mod column;
mod counts;
mod examples;
mod fault;
mod greatest;
mod header;
mod keys;
mod laws;
mod load;
mod nullable;
mod parse;
mod part;
mod records;
mod set;
mod text;
mod version;

pub use amount::Size;
pub use batch::{Batch, read_batch};
pub use examples::{batches_are_computed, loads_are_computed};
pub use fault::BatchFault;
pub use laws::batch_texts_read_back;
pub use lk_val::ValueRef as CellRef;
pub use load::{apply, compact};
pub use set::{DerivedRows, RowsRef, StoredTables, TableSet, share_tables};
pub use text::batch_text;
pub use version::{TableRows, TableVersion, rows, size};
