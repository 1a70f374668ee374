//! Datagroups: what they watch, which of them trigger, and what is remembered of their builds.
#![tactic(auto)]

mod build;
mod examples;
mod laws;
mod trigger;
mod watch;

pub use build::{Build, built};
pub use examples::{datagroups_are_triggered, values_are_watched};
pub use laws::{built_datagroups_rest, changed_values_trigger};
pub use trigger::triggered;
