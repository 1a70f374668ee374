//! A shelf: one list of published values. Readers take its last value with no lock and no wait, and what one reader has seen can be
//! compared with what another has.
#![tactic(auto)]

mod desk;
mod looks;
mod note;
mod publisher;
mod stand;
mod steps;

pub use desk::{Desk, View};
pub use note::Note;
pub use publisher::{Publisher, shelf};
pub use stand::{Law, Stand};
