//! The files of a project: which LookML files its includes reach, in which order, and the first fault on the way.
#![tactic(auto)]

mod faults;
mod gathering;
mod includes;
mod listing;
mod matching;
mod paths;
mod patterns;
mod project;
mod reading;

pub use gathering::gather;
pub use project::{Project, ProjectFault, texts_have_readings};
