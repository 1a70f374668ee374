//! A text of comma-separated fields that is loaded into a table, which stays valid.
#![tactic(auto)]

mod laws;
mod load;

pub use laws::loads_keep_tables_valid;
pub use load::{LoadedBatch, load_text};
