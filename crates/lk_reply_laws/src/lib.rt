//! Laws of whole replies: callers who see the same rows are replied the same.
#![tactic(auto)]

mod laws;

pub use laws::replies_are_isolated;
