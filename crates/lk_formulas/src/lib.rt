//! The formulas of declared fields: their expressions over columns with the fields that they refer to put in, how many nodes
//! these have, and which kinds they may have.
#![tactic(auto)]

mod code;
mod columns;
mod field_kinds;
mod filling;
mod laws;
mod number_size;
mod referent;
mod resolved;
mod sort_kinds;
mod stand_in;
mod table;

pub use columns::{ColumnKinds, UnknownColumn, column_named};
pub use laws::kinds_are_those_of_resolved_expressions;
pub use resolved::ResolvedCode;
pub use sort_kinds::{kind_of_frame, kind_of_type};
pub use stand_in::side_through;
pub use table::FieldTable;
