ghost use Rattle.std.specs.Prelude.{◌≡◌, List, Some, IfOk, IfSome, option_map};
ghost use Rattle.lk_grammar.specs.Forms.{IsText};
ghost use Rattle.lk_grammar.specs.Words.{is_char, after_letters, first_word, word_form, IsClearWord};
ghost use Rattle.lk_grammar.specs.Tokens.{tokens_form, AreClear};

use crate::lexer::{Lexer, read_tokens};
use lk_val::{Items, NoMemory};
use std::alloc::Global;

/// A word of a grammar, by its letters; small letters stand for either case.
pub trait Word: Copy {
    ghost use Rattle.std.specs.Prelude.{◌≡◌, ℕ, List};

    ghost letters_of: { Self → List ℕ };

    /// The letters of the word; a small one stands for either case.
    fn letters(&self) -> &'static [u8]
        ensures { result.now ≡ letters_of self.now };
}

/// The words of a table as tokens.
#[derive(Drop)]
struct Table<'a, W> {
    words: &'a [W],
}

impl<'a, W: Word> Lexer for Table<'a, W> {
    type Token = W;

    ghost use Rattle.lk_grammar.specs.Words.{first_word};

    ghost first_token = { λ table. first_word W.letters_of table.words.now };

    fn first_token<'t>(
        &self,
        alloc: Global,
        text: &'t [u8],
    ) -> Result<Option<(W, &'t [u8])>, NoMemory> {
        let _no_memory_is_taken = alloc;
        Ok(first_word(self.words, text))
    }
}

/// The words of the table that the text spells, and none where it spells none that stand clear of one another.
pub fn read_words<W: Word>(
    alloc: Global,
    white: &[u8],
    table: &[W],
    text: &[u8],
) -> Result<Option<Items<W>>, NoMemory>
    ensures spelled { IfOk result (λ found. IfSome found (λ words. IsText (tokens_form white.now (word_form W.letters_of) words) text.now)) }
    ensures every { IfOk result (λ found. (words : List W) → AreClear (IsClearWord white.now W.letters_of table.now) words → IsText (tokens_form white.now (word_form W.letters_of) words) text.now → found ≡ Some words) }
{
    read_tokens(alloc, &Table { words: table }, white, text)
}

/// The first word of the table that the text begins with, and what is behind it. A word with a front that is a
/// word too goes before it in the table.
pub fn first_word<'a, W: Word>(table: &[W], text: &'a [u8]) -> Option<(W, &'a [u8])>
    ensures { option_map (λ first. (first.0, first.1.now)) result ≡ first_word W.letters_of table.now text.now }
{
    for word in table {
        if let Some(rest) = after_letters(word.letters(), text) {
            return Some((*word, rest));
        }
    }
    None
}

/// What is behind the letters, in any case, where the text begins with them.
fn after_letters<'a>(small: &[u8], text: &'a [u8]) -> Option<&'a [u8]>
    ensures { option_map (λ rest. rest.now) result ≡ after_letters small.now text.now }
{
    match (small.split_first(), text.split_first()) {
        (None, _) => Some(text),
        (Some(_), None) => None,
        (Some((letter, others)), Some((byte, rest))) => {
            if is_char(*letter, *byte) {
                after_letters(others, rest)
            } else {
                None
            }
        }
    }
}

/// Whether a byte is the letter; a small letter stands for either case.
pub fn is_char(letter: u8, byte: u8) -> bool
    ensures { result ≡ is_char letter byte }
{
    byte == letter || letter.is_ascii_lowercase() && byte == letter - 32
}
