//! A project resolved: what its objects say, and its model and users, or the first fault of the whole project.
#![tactic(auto)]

mod loading;
mod objects;
mod resolving;

pub use loading::{Loaded, load};
pub use objects::read_objects;
pub use resolving::resolve;
