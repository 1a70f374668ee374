//! Datagroups, read from their parameters: what a datagroup watches, and its interval.
#![tactic(auto)]

mod datagroup;
mod interval;
mod trigger;

pub use datagroup::read_datagroup;
