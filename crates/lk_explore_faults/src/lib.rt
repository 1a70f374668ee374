//! The faults of explores, and those of views that take other objects: names, stored queries, and conditions.
#![tactic(auto)]

mod conditions;
mod explore_faults;
mod explore_texts;
mod filter_faults;
mod join_faults;
mod relative_dates;
mod stored_queries;
mod view_faults;

pub use explore_faults::test_explore;
pub use view_faults::test_view;
