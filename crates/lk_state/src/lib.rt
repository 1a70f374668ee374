//! A server's state: its tables over kept batches and seeds, the loads that it keeps, and how much it may hold.
#![tactic(auto)]

mod fault;
mod limits;
mod opening;
mod tables;

pub use fault::OpenFault;
pub use limits::is_over;
pub use opening::{loads_of, tables_over};
pub use tables::{compacted, load_into, set_table, table_named};
