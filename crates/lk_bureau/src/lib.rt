//! What lies under the one lock of a server, and the step under it: a load or a check is planned, offered, saved and published.
#![tactic(auto)]

mod acting;
mod bureau;

pub use acting::act;
pub use bureau::{Acted, Bureau};
