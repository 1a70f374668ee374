//! Requests as a connection's bytes come, and replies as bytes.
#![tactic(auto)]

mod asked;
mod conn;
mod faults;
mod fields;
mod head;
mod place;
mod reading;
mod reply;
mod request;
mod route;
mod routes;

pub use conn::{Conn, read_request};
pub use faults::HttpFault;
pub use reply::{write_memory, write_reply};
pub use request::{Got, Request, Target};
