ghost use Rattle.std.specs.Prelude.{◌≡◌, IfOk};
ghost use Rattle.lk_expr_token.specs.Tokens.{keyword_among, keyword_of, keywords, letters_of};

use lk_types::Comparison;
use lk_val::{Bytes, NoMemory, Text};
use std::alloc::Global;

/// A word that is no name, in any case.
#[derive(Clone, Copy, PartialEq, Eq)]
pub enum Keyword {
    And,
    Or,
    Not,
    Is,
    Null,
    In,
    Between,
    Like,
    True,
    False,
    Case,
    When,
    Then,
    Else,
    End,
}

/// A sign that is no comparison.
#[derive(Clone, Copy, PartialEq, Eq)]
pub enum Sign {
    Plus,
    Minus,
    Concat,
    Times,
    Over,
    Open,
    Close,
    Comma,
}

/// A token of an expression.
#[derive(Drop)]
pub enum Token {
    Word(Keyword),
    /// A name that is no keyword, a column's or a function's, and the byte of the text that it begins at.
    Name(Bytes, usize),
    Compare(Comparison),
    Sign(Sign),
    /// A number as it is written.
    Number(Bytes),
    /// A text's characters, without its quotes.
    Text(Text),
    /// A column of the view's own table, `${TABLE}.name`.
    Column(Bytes),
    /// A field of the same view, `${name}`.
    Field(Bytes),
    /// A field of a view, `${view.name}`.
    FieldOf(Bytes, Bytes),
}

const KEYWORDS: [Keyword; 15] = [
    Keyword::And,
    Keyword::Or,
    Keyword::Not,
    Keyword::Is,
    Keyword::Null,
    Keyword::In,
    Keyword::Between,
    Keyword::Like,
    Keyword::True,
    Keyword::False,
    Keyword::Case,
    Keyword::When,
    Keyword::Then,
    Keyword::Else,
    Keyword::End,
];

// The keyword that a name is, in any case.
#[tactic(auto, using(crate::proofs::LetterLaws::lower_letters), unfolding(crate::specs::Tokens::keyword_of))]
pub(crate) fn keyword_of(alloc: Global, name: &[u8]) -> Result<Option<Keyword>, NoMemory>
    ensures { IfOk result (λ keyword. keyword ≡ keyword_of name.now) }
{
    let lower = name.to_ascii_lowercase(alloc)?;
    Ok(keyword_among(&KEYWORDS, lower.as_slice()))
}

// The first keyword of some with these letters.
fn keyword_among(keywords: &[Keyword], letters: &[u8]) -> Option<Keyword>
    ensures { result ≡ keyword_among keywords.now letters.now }
{
    for keyword in keywords {
        if letters == letters_of(*keyword) {
            return Some(*keyword);
        }
    }
    None
}

pub(crate) fn letters_of(keyword: Keyword) -> &'static [u8]
    ensures { result.now ≡ letters_of keyword }
{
    match keyword {
        Keyword::And => b"and",
        Keyword::Or => b"or",
        Keyword::Not => b"not",
        Keyword::Is => b"is",
        Keyword::Null => b"null",
        Keyword::In => b"in",
        Keyword::Between => b"between",
        Keyword::Like => b"like",
        Keyword::True => b"true",
        Keyword::False => b"false",
        Keyword::Case => b"case",
        Keyword::When => b"when",
        Keyword::Then => b"then",
        Keyword::Else => b"else",
        Keyword::End => b"end",
    }
}
