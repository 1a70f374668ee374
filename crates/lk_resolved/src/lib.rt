//! The resolved explore of a declared one: names are numbers, references are put in, and filters are read.
#![tactic(auto)]

mod column;
mod derived_table;
mod explore;
mod fields;
mod filters;
mod formulas;
mod joins;
mod measures;
mod names;
mod number;
mod numbers;
mod parts;

pub use derived_table::resolved_derived;
pub use explore::resolved_explore;
pub use formulas::ModelFields;
