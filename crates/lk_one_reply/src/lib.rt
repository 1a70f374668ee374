//! Laws: what a project says, what it is loaded as, and the reply to words over it are one each.
#![tactic(auto)]

mod laws;

pub use laws::{objects_say_one_thing, words_have_one_reply};
