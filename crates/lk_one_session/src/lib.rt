//! Laws of whole sessions: what a session comes to is decided by its requests, want of memory and failures of the outside aside.
#![tactic(auto)]

mod laws;

pub use laws::{bytes_have_one_next_item, sessions_have_one_outcome};
