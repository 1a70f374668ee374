//! Explores, their joins, filters and aggregate tables, read from their parameters.
#![tactic(auto)]

mod explore;
mod filters;
mod join;
mod join_findings;
mod part_findings;
mod rollup;
mod rollup_findings;
mod values;

pub use explore::read_explore;
