//! A bound query answered over tables: its visible rows are visited once, those that pass are given to groups and
//! measures, and the lines of the groups are the answer. The groups are to be had by themselves too, for what is stored.
#![tactic(auto)]

mod answering;
mod asked;
mod dims;
mod gather;
mod grouping;
mod laws;
mod measures;
mod moment;

pub use answering::{Counted, answer};
pub use grouping::{GatherFault, groups, kept_parts};
pub use laws::resolved_explores_are_fine;
