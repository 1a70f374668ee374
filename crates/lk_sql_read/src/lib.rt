//! Reading printed SQL: its tokens, and its expressions.
#![tactic(auto)]

mod expression;
mod open;
mod quoting;
mod reader;
mod token;
mod word;

pub use expression::read_expression;
pub use token::{Token, first_token};
pub use word::{Word, first_word, words_are_read};
