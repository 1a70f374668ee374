//! The one list of all editions that a shelf has shown. It is there in clauses and not in memory: whoever takes part holds a
//! beginning of it, which is a number and what its values are known to be.
#![tactic(auto)]

mod beginning;
mod blank;
mod rule;

pub use beginning::{Front, Head};
pub use blank::Blank;
pub use rule::{Add, Entry, Law, Nothing, Shelves};
