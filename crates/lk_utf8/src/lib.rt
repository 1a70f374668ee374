//! UTF-8 by its table: what is owed behind each byte, and that texts of whole characters are what std takes.
#![tactic(auto)]

mod utf8;

pub use utf8::{Utf8, each_state_has_an_ending, is_whole, utf8_after, whole_characters_are_utf8};
