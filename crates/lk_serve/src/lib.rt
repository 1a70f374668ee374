//! The top call: words, a folder's files, a store, an input, a door and a clock come in, and the reply to a query or a check goes out,
//! or the replies to the requests of a session, or those of the door's connections do.
#![tactic(auto)]

mod body;
mod checking;
mod console;
mod keeping;
mod listening;
mod opening;
mod querying;
mod replies;
mod script;
mod serve;
mod stops;
mod words;
mod workers;

pub use keeping::{empty_keeper, keeper_for};
pub use listening::Ran;
pub use lk_session::{Ended, session};
pub use opening::{DataFiles, Opened, Unserved, Why, open_office};
pub use serve::run;
