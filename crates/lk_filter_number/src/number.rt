//! Filters of numbers.
mod items;
mod meaning;
mod place;
mod reading;
mod words;

pub use place::place_of_numbers;
pub use reading::read_numbers;
