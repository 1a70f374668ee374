//! Aggregate tables and derived tables, made of the tables that their queries read.
#![tactic(auto)]

mod building;
mod derivation;
mod fault;
mod stored;
mod values;

pub use building::{RollupRows, are_many_cells, build};
pub use derivation::derive;
pub use fault::BuildFault;
pub use stored::{derived_of, derived_query, explore_of, rollup_of, rollup_query};
