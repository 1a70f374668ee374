//! Expressions and measures read from texts, with the place of a fault.
#![tactic(auto)]

mod expr_forms;
mod form_parts;
mod judging;
mod measure_forms;
mod places;
mod reading;

pub use judging::Grammar;
pub use reading::{ExprFault, fault_place, read_expr, read_measure};
