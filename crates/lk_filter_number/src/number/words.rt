use lk_grammar::Word;

/// The words of filters of numbers.
#[derive(Clone, Copy, PartialEq, Eq)]
pub(crate) enum NumberWord {
    AtMost,
    AtLeast,
    Unlike,
    Unequal,
    Less,
    Greater,
    Comma,
    Or,
    And,
    Not,
    Null,
    To,
    OpenSquare,
    OpenRound,
    CloseSquare,
    CloseRound,
    Inf,
    MinusInf,
}

/// The words, each before those that begin it.
pub(crate) const NUMBER_WORDS: [NumberWord; 18] = [
    NumberWord::AtMost,
    NumberWord::AtLeast,
    NumberWord::Unlike,
    NumberWord::Unequal,
    NumberWord::Less,
    NumberWord::Greater,
    NumberWord::Comma,
    NumberWord::Or,
    NumberWord::And,
    NumberWord::Not,
    NumberWord::Null,
    NumberWord::To,
    NumberWord::OpenSquare,
    NumberWord::OpenRound,
    NumberWord::CloseSquare,
    NumberWord::CloseRound,
    NumberWord::Inf,
    NumberWord::MinusInf,
];

impl Word for NumberWord {
    ghost use Rattle.lk_filter_number.specs.Numbers.{letters_of};

    ghost letters_of = { letters_of };

    fn letters(&self) -> &'static [u8] {
        match self {
            NumberWord::AtMost => b"<=",
            NumberWord::AtLeast => b">=",
            NumberWord::Unlike => b"<>",
            NumberWord::Unequal => b"!=",
            NumberWord::Less => b"<",
            NumberWord::Greater => b">",
            NumberWord::Comma => b",",
            NumberWord::Or => b"or",
            NumberWord::And => b"and",
            NumberWord::Not => b"not",
            NumberWord::Null => b"null",
            NumberWord::To => b"to",
            NumberWord::OpenSquare => b"[",
            NumberWord::OpenRound => b"(",
            NumberWord::CloseSquare => b"]",
            NumberWord::CloseRound => b")",
            NumberWord::Inf => b"inf",
            NumberWord::MinusInf => b"-inf",
        }
    }
}
