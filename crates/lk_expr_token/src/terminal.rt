ghost use Rattle.std.specs.Prelude.{◌≡◌, ℕ, slice_get};
ghost use Rattle.lk_expr_token.specs.Terminals.{terminal_byte, name_terminal, sign_byte, terminal_of, every_terminal, word_byte};

use crate::functions::{function_of, is_of_measures};
use crate::token::{Keyword, Sign, Token};

/// The terminal of a token is what the grammars of expressions and of measures tell apart in it.
#[derive(Clone, Copy, PartialEq, Eq)]
pub enum Terminal {
    Word(Keyword),
    Sign(Sign),
    /// The name of a function of measures, NULLIF or COALESCE in any case.
    MeasureFunction,
    /// Any other name.
    Name,
    Compare,
    Number,
    Text,
    Column,
    Field,
    FieldOf,
}

/// Every terminal.
pub const TERMINALS: [Terminal; 31] = [
    Terminal::Word(Keyword::And),
    Terminal::Word(Keyword::Or),
    Terminal::Word(Keyword::Not),
    Terminal::Word(Keyword::Is),
    Terminal::Word(Keyword::Null),
    Terminal::Word(Keyword::In),
    Terminal::Word(Keyword::Between),
    Terminal::Word(Keyword::Like),
    Terminal::Word(Keyword::True),
    Terminal::Word(Keyword::False),
    Terminal::Word(Keyword::Case),
    Terminal::Word(Keyword::When),
    Terminal::Word(Keyword::Then),
    Terminal::Word(Keyword::Else),
    Terminal::Word(Keyword::End),
    Terminal::Sign(Sign::Plus),
    Terminal::Sign(Sign::Minus),
    Terminal::Sign(Sign::Concat),
    Terminal::Sign(Sign::Times),
    Terminal::Sign(Sign::Over),
    Terminal::Sign(Sign::Open),
    Terminal::Sign(Sign::Close),
    Terminal::Sign(Sign::Comma),
    Terminal::MeasureFunction,
    Terminal::Name,
    Terminal::Compare,
    Terminal::Number,
    Terminal::Text,
    Terminal::Column,
    Terminal::Field,
    Terminal::FieldOf,
];

/// The terminal of a token.
pub fn terminal_of(token: &Token) -> Terminal
    ensures { result ≡ terminal_of token.now }
{
    match token {
        Token::Word(keyword) => Terminal::Word(*keyword),
        Token::Name(name, _) => name_terminal(is_of_measures(function_of(name.as_slice()))),
        Token::Compare(_) => Terminal::Compare,
        Token::Sign(sign) => Terminal::Sign(*sign),
        Token::Number(_) => Terminal::Number,
        Token::Text(_) => Terminal::Text,
        Token::Column(_) => Terminal::Column,
        Token::Field(_) => Terminal::Field,
        Token::FieldOf(_, _) => Terminal::FieldOf,
    }
}

fn name_terminal(is_of_measures: bool) -> Terminal
    ensures { result ≡ name_terminal is_of_measures }
{
    if is_of_measures {
        Terminal::MeasureFunction
    } else {
        Terminal::Name
    }
}

/// The byte that stands for a terminal in the forms of the grammars; no two terminals have one.
pub fn terminal_byte(terminal: Terminal) -> u8
    ensures { result ≡ terminal_byte terminal }
{
    match terminal {
        Terminal::Word(keyword) => word_byte(keyword),
        Terminal::Sign(sign) => sign_byte(sign),
        Terminal::MeasureFunction => 24,
        Terminal::Name => 25,
        Terminal::Compare => 26,
        Terminal::Number => 27,
        Terminal::Text => 28,
        Terminal::Column => 29,
        Terminal::Field => 30,
        Terminal::FieldOf => 31,
    }
}

/// No two terminals have one byte, and `TERMINALS` lists each terminal. A law: it computes nothing.
pub fn terminals_are_known_by_bytes()
    ensures known { (j k : Terminal) → terminal_byte j ≡ terminal_byte k → j ≡ k }
    ensures listed { TERMINALS ≡ every_terminal }
    ensures every { (k : Terminal) → (n : ℕ) × (slice_get every_terminal n ≡ Some k) }
{}

fn word_byte(keyword: Keyword) -> u8
    ensures { result ≡ word_byte keyword }
{
    match keyword {
        Keyword::And => 1,
        Keyword::Or => 2,
        Keyword::Not => 3,
        Keyword::Is => 4,
        Keyword::Null => 5,
        Keyword::In => 6,
        Keyword::Between => 7,
        Keyword::Like => 8,
        Keyword::True => 9,
        Keyword::False => 10,
        Keyword::Case => 11,
        Keyword::When => 12,
        Keyword::Then => 13,
        Keyword::Else => 14,
        Keyword::End => 15,
    }
}

fn sign_byte(sign: Sign) -> u8
    ensures { result ≡ sign_byte sign }
{
    match sign {
        Sign::Plus => 16,
        Sign::Minus => 17,
        Sign::Concat => 18,
        Sign::Times => 19,
        Sign::Over => 20,
        Sign::Open => 21,
        Sign::Close => 22,
        Sign::Comma => 23,
    }
}
