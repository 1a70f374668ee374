//! A bound query's plan: its conditions as expressions over the columns of a joined row.
#![tactic(auto)]

mod building;
mod conditions;
mod date_test;
mod field;
mod filter;
mod laws;
mod number_test;
mod plan;
mod test;
mod tier;

pub use field::field_formula;
pub use filter::filter_condition;
pub use laws::{
    conditions_are_dated, conditions_are_filters, fields_are_expressions, filters_are_conditions,
    joined_rows_meet_conditions, tests_are_conditions,
};
pub use plan::compile;
