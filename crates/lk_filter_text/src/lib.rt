//! Filters of texts: the filter that a text spells, or the place at which it stops being one.
#![tactic(auto)]

mod characters;
mod patterns;
mod place;
mod reading;
mod words;

pub use place::judge_texts;
pub use reading::read_texts;
