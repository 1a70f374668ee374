//! The faults that speak of a resolved model: derived tables on cycles, explores over two datagroups, and measures that may
//! not be stored.
#![tactic(auto)]

mod faults;
mod marks;
mod reads;
mod storing;

pub use faults::test_stored;
