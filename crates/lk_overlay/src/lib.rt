//! The parameters of an object, given those of each of its contributors.
#![tactic(auto)]

mod grouped;
mod kind;
mod merging;
mod slot;

pub use kind::Kind;
pub use merging::merged;
pub use slot::Slot;
