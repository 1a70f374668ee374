//! Text literals that are compared with days and moments: each is the day or the moment that it writes.
#![tactic(auto)]

mod comparing;
mod dating;
mod examples;
mod kinds;
mod reading;
mod side;
mod text_literal;
mod tree;
mod written_out;

pub use dating::dated;
pub use examples::text_literals_are_read_as_compared;
pub use kinds::kinds_dated;
pub use side::{Readings, Side};
pub use text_literal::readings_of;
