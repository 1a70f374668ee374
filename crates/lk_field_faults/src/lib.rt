//! The faults of fields beside those of their own parameters: in their own view, and in an explore.
#![tactic(auto)]

mod explore_fields;
mod expressions;
mod field_faults;
mod field_names;
mod made_names;

pub use explore_fields::test_explore_fields;
pub use expressions::{expression_line, expression_number};
pub use field_faults::test_view_fields;
