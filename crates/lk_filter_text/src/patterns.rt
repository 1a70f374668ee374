ghost use Rattle.std.specs.Prelude.{◌≡◌, ◌++◌, IfOk, OnOk, map};
ghost use Rattle.lk_types.specs.declared.expr.Piece.TheVariants.{Byte};
ghost use Rattle.lk_grammar.specs.Words.{is_char};
ghost use Rattle.lk_filter_text.specs.Texts.{text_test, word_piece, token_pieces, pieces_of, is_letter, is_keyword};

use crate::words::{TextToken, TextWord};
use lk_grammar::{Token, is_char};
use lk_types::{Piece, Test};
use lk_val::{Items, NoMemory};
use std::alloc::Global;

/// The test of a pattern: `NULL`, `EMPTY`, or the texts that it covers.
pub(crate) fn text_test(alloc: Global, content: &[TextToken]) -> Result<Test, NoMemory>
    ensures { IfOk result (λ test. test ≡ text_test content.now) }
{
    if is_keyword(b"null", content) {
        return Ok(Test::Null);
    }
    if is_keyword(b"empty", content) {
        return Ok(Test::Empty);
    }
    Ok(Test::Like(pieces_of(alloc, content)?))
}

fn is_keyword(small: &[u8], tokens: &[TextToken]) -> bool
    ensures { result ≡ is_keyword small.now tokens.now }
{
    match (small.split_first(), tokens.split_first()) {
        (None, None) => true,
        (Some((letter, others)), Some((token, rest))) => is_letter(*letter, token)
            && is_keyword(others, rest),
        _ => false,
    }
}

fn is_letter(letter: u8, token: &TextToken) -> bool
    ensures { result ≡ is_letter letter token.now }
{
    match token {
        Token::Word(_) => false,
        Token::Literal(text) => match text.as_slice().split_first() {
            None => false,
            Some((first, rest)) => rest.is_empty() && is_char(letter, *first),
        },
    }
}

fn pieces_of(alloc: Global, tokens: &[TextToken]) -> Result<Items<Piece>, NoMemory>
    ensures { IfOk result (λ pieces. pieces ≡ pieces_of tokens.now) }
{
    let mut pieces = Items::new(alloc);
    for token in tokens {
        push_pieces(&mut pieces, token)?;
    }
    Ok(pieces)
}

fn push_pieces(pieces: &mut Items<Piece>, token: &TextToken) -> Result<(), NoMemory>
    ensures { OnOk result (pieces.new ≡ pieces.old ++ token_pieces token.now) }
{
    match token {
        Token::Word(word) => pieces.push(word_piece(*word)),
        Token::Literal(text) => push_bytes(pieces, text.as_slice()),
    }
}

fn push_bytes(pieces: &mut Items<Piece>, bytes: &[u8]) -> Result<(), NoMemory>
    ensures { OnOk result (pieces.new ≡ pieces.old ++ map Byte bytes.now) }
{
    for byte in bytes {
        pieces.push(Piece::Byte(*byte))?;
    }
    Ok(())
}

fn word_piece(word: TextWord) -> Piece
    ensures { result ≡ word_piece word }
{
    match word {
        TextWord::Any => Piece::Any,
        TextWord::Comma | TextWord::QuotedComma => Piece::Byte(b','),
        TextWord::QuotedSpace => Piece::Byte(b' '),
        TextWord::QuotedAny => Piece::Byte(b'%'),
        TextWord::QuotedOne => Piece::Byte(b'_'),
        TextWord::QuotedQuote => Piece::Byte(b'"'),
        TextWord::QuotedMinus => Piece::Byte(b'-'),
        TextWord::QuotedCaret => Piece::Byte(b'^'),
    }
}
