//! Which joins a query needs, which views they fan out, and which views a key determines over them.
#![tactic(auto)]

mod asking;
mod component;
mod fanning;
mod joins;
mod role;
mod standing;

pub use component::components;
pub use fanning::fanned;
pub use joins::need_joins;
pub use standing::determined;
