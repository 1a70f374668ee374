//! The store of loads: what is saved before any reader sees it, and what is handed over at opening; in memory or in a file.
#![tactic(auto)]

mod held;
mod sql_keeper;

pub use held::Held;
pub use lk_ledger::{Chunk, Command, KeepFault, Keeper, Kept, KeptId, MemKeeper};
pub use sql_keeper::SqlKeeper;
