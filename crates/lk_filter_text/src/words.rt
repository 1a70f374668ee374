use lk_grammar::{Token, Word};

/// The marks of filters of texts: a comma, `%`, and `^` with each character that it quotes.
#[derive(Clone, Copy)]
pub(crate) enum TextWord {
    Comma,
    Any,
    QuotedComma,
    QuotedSpace,
    QuotedAny,
    QuotedOne,
    QuotedQuote,
    QuotedMinus,
    QuotedCaret,
}

/// A mark, or a plain character.
pub(crate) type TextToken = Token<TextWord>;

pub(crate) const TEXT_WORDS: [TextWord; 9] = [
    TextWord::Comma,
    TextWord::Any,
    TextWord::QuotedComma,
    TextWord::QuotedSpace,
    TextWord::QuotedAny,
    TextWord::QuotedOne,
    TextWord::QuotedQuote,
    TextWord::QuotedMinus,
    TextWord::QuotedCaret,
];

impl Word for TextWord {
    ghost use Rattle.lk_filter_text.specs.Texts.{letters_of};

    ghost letters_of = { letters_of };

    fn letters(&self) -> &'static [u8] {
        match self {
            TextWord::Comma => b",",
            TextWord::Any => b"%",
            TextWord::QuotedComma => b"^,",
            TextWord::QuotedSpace => b"^ ",
            TextWord::QuotedAny => b"^%",
            TextWord::QuotedOne => b"^_",
            TextWord::QuotedQuote => b"^\"",
            TextWord::QuotedMinus => b"^-",
            TextWord::QuotedCaret => b"^^",
        }
    }
}
