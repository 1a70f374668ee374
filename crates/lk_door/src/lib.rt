//! The workers of a server: each serves connections from one door, beside the others, over one writer.
#![tactic(auto)]

mod doorway;
mod serving;

pub use doorway::{Doorway, Since};
pub use serving::{Served, Shut, serve_door};
