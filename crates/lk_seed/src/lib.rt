//! The data files of a project: the batch of each table of its schema, and the fault of one that does not read.
#![tactic(auto)]

mod fault;
mod seeds;

pub use fault::seed_fault;
pub use seeds::read_seeds;
