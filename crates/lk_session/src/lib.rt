//! A session: the requests of a connection answered in order by an office, on one thread.
#![tactic(auto)]

mod answering;
mod laws;
mod serving;

pub use answering::session;
pub use laws::failed_saves_are_counted;
pub use lk_turns::Ended;
