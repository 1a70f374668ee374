//! Laws of whole sessions: which loads and checks they accept, and what the store then holds.
#![tactic(auto)]

mod laws;

pub use laws::sessions_accept_steps;
