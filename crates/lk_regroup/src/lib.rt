//! A query's groups and its answer from the rows of an aggregate table that fits it.
#![tactic(auto)]

mod asked;
mod component;
mod framing;
mod grouping;
mod passing;
mod regrouping;
mod source;
mod value;

pub use regrouping::{answer_from_rollup, regroup};
