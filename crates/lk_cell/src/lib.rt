//! The cells of tables and the literals of expressions: what a text reads as, by its kind.
#![tactic(auto)]

mod cell;
mod day;
mod examples;
mod laws;
mod moment;
mod pieces;
mod truth;

pub use cell::read_cell;
pub use day::read_day;
pub use examples::cells_read_by_their_kind;
pub use laws::cells_are_of_their_kind;
pub use moment::read_moment;
