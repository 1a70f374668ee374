//! The texts of expressions: the one tree that a text spells.
#![tactic(auto)]

mod measure;
mod parser;
mod reading;

pub use measure::parse_measure;
pub use reading::parse_expr;
