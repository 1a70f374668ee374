//! The tokens of the texts of expressions, the terminals that grammars tell apart, and what begins a token.
#![tactic(auto)]

mod fronts;
mod functions;
mod lexer;
mod quoting;
mod scan;
mod terminal;
mod token;

pub use fronts::begun;
pub use functions::{Function, function_of, is_of_measures};
pub use lexer::read_tokens;
pub use scan::{behind_tokens, is_unread, terminals_are_those_of_tokens, terminals_in};
pub use terminal::{TERMINALS, Terminal, terminal_byte, terminal_of, terminals_are_known_by_bytes};
pub use token::{Keyword, Sign, Token};
