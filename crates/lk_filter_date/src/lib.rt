//! Filters of dates: the filter that a text spells, or the place at which it stops being one.
#![tactic(auto)]

mod forms;
mod items;
mod literal;
mod meaning;
mod place;
mod reading;
mod words;
mod written;

pub use place::judge_dates;
pub use reading::read_dates;
