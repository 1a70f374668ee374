//! A connection to live readers: queries from one look at what is shown, loads and checks by whoever hands them on.
#![tactic(auto)]

mod acting;
mod live;
mod serve;
mod sharing;
mod teller;
mod worker;

pub use acting::{Act, Sent};
pub use live::Live;
pub use serve::serve_link;
pub use sharing::share_a_list;
pub use teller::Teller;
pub use worker::Worker;
