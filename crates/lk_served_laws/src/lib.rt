//! Laws: what runs of `script` over one store after another accept is kept, and acts once.
#![tactic(auto)]

mod laws;

pub use laws::{next_scripts_go_on, scripts_keep_what_they_accept, sessions_keep_a_ledger};
