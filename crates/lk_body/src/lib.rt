//! The body of a query as names, filter texts and sorts, and why a query is refused.
#![tactic(auto)]

mod body;
mod fault;
mod sort;
mod strings;

pub use body::read_query;
pub use fault::QueryFault;
