//! Connections that are served side by side: what their replies have in common.
#![tactic(auto)]

mod connections;
mod laws;

pub use connections::{Connection, serve_links};
pub use laws::unsaved_requests_are_counted;
