//! LookML files as one project: the effective views, explores and datagroups, or the first fault of merging.
#![tactic(auto)]

mod by_name;
mod circles;
mod contributors;
mod cycles;
mod declaration;
mod faults;
mod names;
mod objects;
mod paths;
mod project;
mod ranks;
mod rows;
mod strays;
mod whole;

pub use declaration::Declaration;
pub use lk_include::{Project, ProjectFault, gather};
pub use lk_overlay::{Kind, Slot};
pub use project::{Merged, Object};
pub use whole::merge;
