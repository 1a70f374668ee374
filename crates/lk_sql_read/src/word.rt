ghost use Rattle.std.specs.Prelude.{◌≡◌, ◌++◌, ℕ, List, [], Some, codes, false, option_map};
ghost use Rattle.lk_sql_read.specs.Words.{begins, first_of, is_front, word_text, words};
ghost use Rattle.lk_sql_read.specs.declared.word.Word.{Word};
ghost use Rattle.lk_sql_read.specs.declared.word.Word.TheVariants as word;
ghost use Rattle.lk_sql_tree.specs.declared.node.Fold.TheVariants as fold;

use lk_sql_tree::{
    Fold, KeyFold, arithmetic_text, comparison_text, fold_front, frame_front, key_front,
};
use lk_types::{Arithmetic, Comparison, Frame};

/// A token of printed SQL whose text is always the same, with the spaces and line feeds that it is printed with.
#[derive(Clone, Copy, PartialEq, Eq)]
pub enum Word {
    Select,
    From,
    LeftJoin,
    FullJoin,
    InnerJoin,
    CrossJoin,
    Where,
    GroupBy,
    Having,
    OrderBy,
    Limit,
    LineEnd,
    As,
    On,
    Ascending,
    Descending,
    Comma,
    Open,
    Close,
    Not,
    Minus,
    And,
    Or,
    IsNull,
    In,
    Like,
    Concat,
    Case,
    When,
    Then,
    Else,
    End,
    Lower,
    Upper,
    CountRows,
    Coalesce,
    NullIf,
    Null,
    True,
    False,
    Compare(Comparison),
    Number(Arithmetic),
    /// What stands before the expression of a timeframe.
    Framed(Frame),
    /// What stands before the expression of an aggregate.
    Folded(Fold),
    /// What stands before the key of an aggregate by key.
    ByKey(KeyFold),
}

// The longer before its front.
const WORDS: [Word; 69] = [
    Word::Select,
    Word::From,
    Word::LeftJoin,
    Word::FullJoin,
    Word::InnerJoin,
    Word::CrossJoin,
    Word::Where,
    Word::GroupBy,
    Word::Having,
    Word::OrderBy,
    Word::Limit,
    Word::LineEnd,
    Word::As,
    Word::On,
    Word::Ascending,
    Word::Descending,
    Word::Comma,
    Word::Open,
    Word::Close,
    Word::Not,
    Word::Minus,
    Word::And,
    Word::Or,
    Word::IsNull,
    Word::In,
    Word::Like,
    Word::Concat,
    Word::Case,
    Word::When,
    Word::Then,
    Word::Else,
    Word::End,
    Word::Lower,
    Word::Upper,
    Word::CountRows,
    Word::Compare(Comparison::Equal),
    Word::Compare(Comparison::NotEqual),
    Word::Compare(Comparison::Less),
    Word::Compare(Comparison::AtMost),
    Word::Compare(Comparison::Greater),
    Word::Compare(Comparison::AtLeast),
    Word::Number(Arithmetic::Plus),
    Word::Number(Arithmetic::Minus),
    Word::Number(Arithmetic::Times),
    Word::Number(Arithmetic::Over),
    Word::Framed(Frame::Raw),
    Word::Framed(Frame::Time),
    Word::Framed(Frame::Date),
    Word::Framed(Frame::Week),
    Word::Framed(Frame::Month),
    Word::Framed(Frame::Quarter),
    Word::Framed(Frame::Year),
    Word::Framed(Frame::HourOfDay),
    Word::Framed(Frame::DayOfWeek),
    Word::Framed(Frame::DayOfMonth),
    Word::Framed(Frame::MonthNum),
    Word::Folded(Fold::Distinct),
    Word::Folded(Fold::Count),
    Word::Folded(Fold::Sum),
    Word::Folded(Fold::Average),
    Word::Folded(Fold::Least),
    Word::Folded(Fold::Greatest),
    Word::ByKey(KeyFold::SumByKey),
    Word::ByKey(KeyFold::AverageByKey),
    Word::Coalesce,
    Word::NullIf,
    Word::Null,
    Word::True,
    Word::False,
];

impl Word {
    /// The text of the word.
    pub fn text(self) -> &'static [u8]
        ensures { result.now ≡ word_text self }
    {
        match self {
            Word::Select => b"SELECT ",
            Word::From => b"\nFROM ",
            Word::LeftJoin => b"\nLEFT JOIN ",
            Word::FullJoin => b"\nFULL JOIN ",
            Word::InnerJoin => b"\nINNER JOIN ",
            Word::CrossJoin => b"\nCROSS JOIN ",
            Word::Where => b"\nWHERE ",
            Word::GroupBy => b"\nGROUP BY ",
            Word::Having => b"\nHAVING ",
            Word::OrderBy => b"\nORDER BY ",
            Word::Limit => b"\nLIMIT ",
            Word::LineEnd => b"\n",
            Word::As => b" AS ",
            Word::On => b" ON ",
            Word::Ascending => b" ASC NULLS FIRST",
            Word::Descending => b" DESC NULLS LAST",
            Word::Comma => b", ",
            Word::Open => b"(",
            Word::Close => b")",
            Word::Not => b"NOT ",
            Word::Minus => b"- ",
            Word::And => b" AND ",
            Word::Or => b" OR ",
            Word::IsNull => b" IS NULL",
            Word::In => b" IN (",
            Word::Like => b" LIKE ",
            Word::Concat => b" || ",
            Word::Case => b"CASE WHEN ",
            Word::When => b" WHEN ",
            Word::Then => b" THEN ",
            Word::Else => b" ELSE ",
            Word::End => b" END",
            Word::Lower => b"LOWER(",
            Word::Upper => b"UPPER(",
            Word::CountRows => b"COUNT(*)",
            Word::Coalesce => b"COALESCE(",
            Word::NullIf => b"NULLIF(",
            Word::Null => b"NULL",
            Word::True => b"TRUE",
            Word::False => b"FALSE",
            Word::Compare(comparison) => comparison_text(comparison),
            Word::Number(op) => arithmetic_text(op),
            Word::Framed(frame) => frame_front(frame),
            Word::Folded(fold) => fold_front(fold),
            Word::ByKey(fold) => key_front(fold),
        }
    }
}

/// The word with which a text begins, the longest where there are more, and what is behind it.
pub fn first_word(text: &[u8]) -> Option<(Word, &[u8])>
    ensures { option_map (λ found. (found.0, found.1.now)) result ≡ first_of words text.now }
{
    first_of(&WORDS, text)
}

// The first of some words with which the text begins.
fn first_of<'a>(words: &[Word], text: &'a [u8]) -> Option<(Word, &'a [u8])>
    ensures { option_map (λ found. (found.0, found.1.now)) result ≡ first_of words.now text.now }
{
    for word in words {
        if let Some(rest) = text.strip_prefix(word.text()) {
            return Some((*word, rest));
        }
    }
    None
}

/// A word is read from its own text, whatever is behind it; one with which another word begins, where what makes it
/// the other is not behind it. A law: it computes nothing.
pub fn words_are_read()
    ensures every { (w : Word) (rest : List ℕ) → is_front w ≡ false
        → first_of words (word_text w ++ rest) ≡ Some (w, rest) }
    ensures line_end { first_of words (word_text word.LineEnd) ≡ Some (word.LineEnd, []) }
    ensures null { (rest : List ℕ) → begins (codes "IF(") rest ≡ false
        → first_of words (word_text word.Null ++ rest) ≡ Some (word.Null, rest) }
    ensures coalesce { (rest : List ℕ) → begins (codes "SUM(") rest ≡ false
        → first_of words (word_text word.Coalesce ++ rest) ≡ Some (word.Coalesce, rest) }
    ensures count { (rest : List ℕ) → begins (codes "*)") rest ≡ false → begins (codes "DISTINCT ") rest ≡ false
        → first_of words (word_text (word.Folded fold.Count) ++ rest) ≡ Some (word.Folded fold.Count, rest) }
{}
