//! What is kept of the builds of datagroups: made whole at an opening, and anew in part by a check.
#![tactic(auto)]

mod anew;
mod built;
mod keeps;
mod laws;
mod making;
mod numbers;
mod wanted;

pub use anew::{keep_all, keep_anew};
pub use built::fill_built;
pub use keeps::Keeps;
pub use laws::{all_built_anew_are_whole, what_is_built_anew_is_kept};
