//! A caller's query on an edition: its answer, over the tables or from the aggregate table that it is routed to, or its first
//! refusal.
#![tactic(auto)]

mod answering;
mod asking;
mod laws;
mod scratch;

pub use asking::ask;
pub use laws::{answers_are_of_one_snapshot, bodies_are_replied_one_thing, one_state_is_named};
pub use scratch::Scratch;
