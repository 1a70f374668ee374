ghost use Rattle.std.specs.Prelude.{◌≡◌, ◌≤◌, ℕ, Bool, List, Some, IfOk, IfSome, length};
ghost use Rattle.std.specs.List.{AllByRecursion};
ghost use Rattle.lk_grammar.specs.Forms.{Form, IsText};
ghost use Rattle.lk_grammar.specs.Literals.{IsLiteralReader, IsClearToken, IsLiteralOf, token_form, first_of};
ghost use Rattle.lk_grammar.specs.Tokens.{tokens_of, tokens_form, AreClear};

use crate::lexer::{Lexer, read_tokens};
use crate::word::{Word, first_word};
use lk_val::{Bytes, Items, NoMemory};
use std::alloc::Global;

/// A word of a table, or a literal as it is written.
#[derive(Drop)]
pub enum Token<W> {
    /// A word of the table.
    Word(W),
    /// A literal, by its bytes.
    Literal(Bytes),
}

/// What finds literals: texts of a form of their own, such as numbers.
pub trait Literals {
    ghost use Rattle.std.specs.Prelude.{◌≡◌, ◌≤◌, ℕ, List, length};

    ghost length_of: { Self → List ℕ → ℕ };

    /// The length in bytes of the literal that a text begins with, and 0 where it begins with none.
    fn length(&self, text: &[u8]) -> usize
        ensures length { result ≡ length_of self.now text.now }
        ensures within { result ≤ length text.now };
}

/// The words of a table and literals as tokens.
#[derive(Drop)]
struct Lexicon<'a, W, L> {
    words: &'a [W],
    literals: &'a L,
}

impl<'a, W: Word, L: Literals> Lexer for Lexicon<'a, W, L> {
    type Token = Token<W>;

    ghost use Rattle.lk_grammar.specs.Literals.{first_of};

    ghost first_token = { λ lexicon. first_of W.letters_of (L.length_of lexicon.literals.now) lexicon.words.now };

    fn first_token<'t>(
        &self,
        alloc: Global,
        text: &'t [u8],
    ) -> Result<Option<(Token<W>, &'t [u8])>, NoMemory> {
        let length = self.literals.length(text);
        if length == 0 {
            match first_word(self.words, text) {
                None => Ok(None),
                Some((word, rest)) => Ok(Some((Token::Word(word), rest))),
            }
        } else {
            let (literal, rest) = text.split_at(length);
            let literal = Bytes::from_slice(alloc, literal)?;
            Ok(Some((Token::Literal(literal), rest)))
        }
    }
}

/// The words of the table and the literals that the text spells, with spaces before each and behind the last, and none
/// where it spells none that stand clear of one another.
pub fn read_words_and_literals<W: Word, L: Literals>(
    alloc: Global,
    white: &[u8],
    literals: &L,
    table: &[W],
    text: &[u8],
) -> Result<Option<Items<Token<W>>>, NoMemory>
where
    W: Drop,
    ensures spelled { (form : Form) (goes_on : ℕ → Bool) (is_clear : List ℕ → Bool) → IsLiteralReader white.now form goes_on is_clear (L.length_of literals.now) → IfOk result (λ found. IfSome found (λ tokens. IsText (tokens_form white.now (token_form W.letters_of) tokens) text.now)) }
    ensures every { (form : Form) (goes_on : ℕ → Bool) (is_clear : List ℕ → Bool) → IsLiteralReader white.now form goes_on is_clear (L.length_of literals.now) → IfOk result (λ found. (tokens : List (Token W)) → AreClear (IsClearToken white.now W.letters_of form goes_on is_clear table.now) tokens → IsText (tokens_form white.now (token_form W.letters_of) tokens) text.now → found ≡ Some tokens) }
    ensures literals { (form : Form) (goes_on : ℕ → Bool) (is_clear : List ℕ → Bool) → IsLiteralReader white.now form goes_on is_clear (L.length_of literals.now) → IfOk result (λ found. IfSome found (AllByRecursion (IsLiteralOf form))) }
{
    let lexicon = Lexicon {
        words: table,
        literals,
    };
    read_tokens(alloc, &lexicon, white, text)
}
