//! The requests of a connection answered in order, whoever answers them.
#![tactic(auto)]

mod answerer;
mod answering;
mod ended;
mod refusing;

pub use answerer::Answerer;
pub use answering::{forget, refuse, send, serve_turns};
pub use ended::Ended;
