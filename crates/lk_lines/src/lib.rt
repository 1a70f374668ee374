//! The answer of a query from its finished groups: their lines with the measures that are picked, those that pass the
//! filters on measures, in order, and the first of them.
#![tactic(auto)]

mod answer;
mod calculating;
mod line;
mod nesting;
mod order;
mod source;

pub use answer::{answer_lines, lines, query_components};
