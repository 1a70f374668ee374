//! Grammars as values: what a grammar's texts are, and where a text stops being one of them.
#![tactic(auto)]

mod form;
mod judging;
mod lexer;
mod lists;
mod literals;
mod numbers;
mod places;
mod reaching;
mod stack;
mod steps;
mod word;

pub use form::Form;
pub use judging::{judge, judge_nested};
pub use lexer::{Lexer, read_tokens};
pub use lists::listed;
pub use literals::{Literals, Token, read_words_and_literals};
pub use numbers::{Numbers, UnsignedNumbers, number, numbers_are_literals, unsigned_number};
pub use places::{Machine, machines_find_places};
pub use reaching::Reached;
pub use word::{Word, first_word, is_char, read_words};
