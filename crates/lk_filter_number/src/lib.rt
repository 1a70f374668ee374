//! Filters of numbers and of truth values: the filter that a text spells, or the place at which it stops being one.
#![tactic(auto)]

mod number;
mod truth;

pub use number::{place_of_numbers, read_numbers};
pub use truth::{judge_truths, read_truths};
