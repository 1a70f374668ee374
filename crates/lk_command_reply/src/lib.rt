//! Replies to loads and checks: what was done, or why it was refused.
#![tactic(auto)]

mod fault;
mod objects;
mod refusals;
mod replies;

pub use fault::{CheckFault, LoadFault};
pub use refusals::{reply_check_refusal, reply_load_refusal, reply_unsaved};
pub use replies::{built_reply, load_reply};
