ghost use Rattle.std.specs.Prelude.{◌≡◌, ◌≤◌, ◌∷◌, IfOk, IfSome, List, Some, length, option_map};
ghost use Rattle.lk_grammar.specs.Tokens.{tokens_of};
ghost use Rattle.lk_grammar.specs.Numbers.{is_of_number, unsigned_length};
ghost use Rattle.lk_grammar.specs.Literals.{is_ended};
ghost use Rattle.lk_expr_token.specs.declared.token.Token.{Token};
ghost use Rattle.lk_expr_token.specs.Tokens.{IsSpelled, is_letter, is_name_byte, is_number, white};
ghost use Rattle.lk_expr_token.specs.Lexing.{bare_column, closed_column, closed_field, column_token, field_token, first_by, first_characters, first_name, first_number, first_reference, first_sign, first_token, first_word, name_length, number_token, one_byte, reference_token, text_token, two_bytes};

use crate::token::{Sign, Token, keyword_of};
use lk_grammar::{Lexer, Literals, UnsignedNumbers};
use lk_types::Comparison;
use lk_val::{Bytes, Items, NoMemory, Num, Text};
use std::alloc::Global;

// A space, a tab and line ends.
const WHITE: &[u8] = b" \t\n\r";

// A token and what is behind it.
type Found<'a> = Option<(Token, &'a [u8])>;

// The tokens of a text of so many bytes.
#[derive(Drop)]
struct Tokens {
    whole: usize,
}

impl Lexer for Tokens {
    type Token = Token;

    ghost use Rattle.lk_expr_token.specs.Lexing.{first_token};

    ghost first_token = { λ tokens. first_token tokens.whole };

    fn first_token<'a>(
        &self,
        alloc: Global,
        text: &'a [u8],
    ) -> Result<Option<(Token, &'a [u8])>, NoMemory> {
        first_token(alloc, self.whole, text)
    }
}

/// The tokens that a text spells, and none where it spells none. (lookd)
pub fn read_tokens(alloc: Global, text: &[u8]) -> Result<Option<Items<Token>>, NoMemory>
    // What is read is spelled so.
    ensures spelled { IfOk result (λ found. IfSome found (λ tokens. IsSpelled (length text.now) tokens text.now)) }
    // What is spelled is read, so a text spells no other tokens.
    ensures every { IfOk result (λ found. (tokens : List Token) → IsSpelled (length text.now) tokens text.now → found ≡ Some tokens) }
{
    tokens_of(alloc, text)
}

fn tokens_of(alloc: Global, text: &[u8]) -> Result<Option<Items<Token>>, NoMemory>
    ensures { IfOk result (λ found. found ≡ tokens_of white (first_token (length text.now)) text.now) }
{
    let tokens = Tokens { whole: text.len() };
    lk_grammar::read_tokens(alloc, &tokens, WHITE, text)
}

// The token in front of a text, and what is behind it.
#[tactic(auto, unfolding(crate::specs::Lexing::first_token))]
pub(crate) fn first_token(alloc: Global, whole: usize, text: &[u8]) -> Result<Found<'_>, NoMemory>
    ensures { IfOk result (λ found. option_map (λ first. (first.0, first.1.now)) found ≡ first_token whole text.now) }
{
    match text.split_first() {
        Some((first, behind)) => first_by(alloc, whole, *first, text, behind),
        None => Ok(None),
    }
}

fn first_by<'a>(
    alloc: Global,
    whole: usize,
    first: u8,
    text: &'a [u8],
    behind: &'a [u8],
) -> Result<Found<'a>, NoMemory>
    requires { text.now ≡ first ∷ behind.now }
    ensures { IfOk result (λ found. option_map (λ first. (first.0, first.1.now)) found ≡ first_by whole first behind.now) }
{
    if first.is_ascii_digit() {
        first_number(alloc, text)
    } else if is_letter(first) {
        first_word(alloc, whole, text)
    } else if first == b'\'' {
        first_text(alloc, behind)
    } else if first == b'$' {
        first_reference(alloc, behind)
    } else {
        Ok(first_sign(text))
    }
}

fn is_letter(byte: u8) -> bool
    ensures { result ≡ is_letter byte }
{
    byte.is_ascii_lowercase() || byte.is_ascii_uppercase() || byte == b'_'
}

fn is_name_byte(byte: u8) -> bool
    ensures { result ≡ is_name_byte byte }
{
    is_letter(byte) || byte.is_ascii_digit()
}

// How many bytes of a name come first.
fn name_length(text: &[u8]) -> usize
    ensures length { result ≡ name_length text.now }
    ensures within { result ≤ length text.now }
{
    let mut count = 0;
    for byte in text {
        if !is_name_byte(*byte) {
            return count;
        }
        count += 1;
    }
    count
}

// The name that comes first, if one does, and what is behind it.
fn first_name(text: &[u8]) -> Option<(&[u8], &[u8])>
    ensures { option_map (λ found. (found.0.now, found.1.now)) result ≡ first_name text.now }
{
    let length = name_length(text);
    if length == 0 {
        return None;
    }
    Some(text.split_at(length))
}

// A keyword, or the name of a column or a function.
fn first_word(alloc: Global, whole: usize, text: &[u8]) -> Result<Found<'_>, NoMemory>
    ensures { IfOk result (λ found. option_map (λ first. (first.0, first.1.now)) found ≡ first_word whole text.now) }
{
    let Some((name, rest)) = first_name(text) else {
        return Ok(None);
    };
    match keyword_of(alloc, name)? {
        Some(keyword) => Ok(Some((Token::Word(keyword), rest))),
        None => {
            let place = whole.saturating_sub(text.len());
            Ok(Some((Token::Name(Bytes::from_slice(alloc, name)?, place), rest)))
        }
    }
}

fn first_number(alloc: Global, text: &[u8]) -> Result<Found<'_>, NoMemory>
    ensures { IfOk result (λ found. option_map (λ first. (first.0, first.1.now)) found ≡ first_number text.now) }
{
    let (number, rest) = text.split_at(UnsignedNumbers.length(text));
    if !is_number(number) || !is_ended(rest) {
        return Ok(None);
    }
    Ok(Some((Token::Number(Bytes::from_slice(alloc, number)?), rest)))
}

// Whether the text is a number in range.
pub(crate) fn is_number(text: &[u8]) -> bool
    ensures { result ≡ is_number text.now }
{
    Num::read(text).is_ok()
}

// Whether no byte that goes on with a number comes first.
fn is_ended(text: &[u8]) -> bool
    ensures { result ≡ is_ended is_of_number text.now }
{
    match text.split_first() {
        Some((byte, _)) => !(byte.is_ascii_digit() || *byte == b'.'),
        None => true,
    }
}

// A text, behind its first quote.
fn first_text(alloc: Global, text: &[u8]) -> Result<Found<'_>, NoMemory>
    ensures { IfOk result (λ found. option_map (λ first. (first.0, first.1.now)) found ≡ text_token (first_characters text.now)) }
{
    let Some((characters, rest)) = first_characters(alloc, text)? else {
        return Ok(None);
    };
    match Text::from_utf8(alloc, characters.as_slice())? {
        Some(text) => Ok(Some((Token::Text(text), rest))),
        None => Ok(None),
    }
}

// The characters up to the quote that no quote follows, and what is behind it.
fn first_characters(alloc: Global, text: &[u8]) -> Result<Option<(Vec<u8>, &[u8])>, NoMemory>
    ensures { IfOk result (λ found. option_map (λ text. (text.0.items, text.1.now)) found ≡ first_characters text.now) }
{
    let mut characters = Vec::new(alloc);
    let mut rest = text;
    while let Some((byte, behind)) = rest.split_first() {
        rest = behind;
        if *byte == b'\'' {
            match behind.split_first() {
                Some((b'\'', further)) => rest = further,
                _ => return Ok(Some((characters, rest))),
            }
        }
        characters.push(*byte)?;
    }
    Ok(None)
}

// What `${` begins, behind the `$`.
fn first_reference(alloc: Global, text: &[u8]) -> Result<Found<'_>, NoMemory>
    ensures { IfOk result (λ found. option_map (λ first. (first.0, first.1.now)) found ≡ first_reference text.now) }
{
    match text.split_first() {
        Some((b'{', inside)) => reference_token(alloc, inside),
        _ => Ok(None),
    }
}

fn reference_token(alloc: Global, inside: &[u8]) -> Result<Found<'_>, NoMemory>
    ensures { IfOk result (λ found. option_map (λ first. (first.0, first.1.now)) found ≡ reference_token (first_name inside.now)) }
{
    let Some((name, behind)) = first_name(inside) else {
        return Ok(None);
    };
    match behind.split_first() {
        Some((b'}', rest)) => field_token(alloc, name, rest),
        Some((b'.', rest)) => field_of_view(alloc, name, rest),
        _ => Ok(None),
    }
}

// A field of the same view; a column where the name is TABLE and a dot follows.
fn field_token<'a>(alloc: Global, name: &[u8], rest: &'a [u8]) -> Result<Found<'a>, NoMemory>
    ensures { IfOk result (λ found. option_map (λ first. (first.0, first.1.now)) found ≡ field_token name.now rest.now) }
{
    match rest.split_first() {
        Some((b'.', behind)) if name == b"TABLE".as_slice() => column_token(alloc, behind),
        Some((b'.', _)) => Ok(None),
        _ => Ok(Some((Token::Field(Bytes::from_slice(alloc, name)?), rest))),
    }
}

fn field_of_view<'a>(alloc: Global, view: &[u8], text: &'a [u8]) -> Result<Found<'a>, NoMemory>
    ensures { IfOk result (λ found. option_map (λ first. (first.0, first.1.now)) found ≡ closed_field view.now (first_name text.now)) }
{
    let Some((name, behind)) = first_name(text) else {
        return Ok(None);
    };
    match behind.split_first() {
        Some((b'}', rest)) => {
            let view = Bytes::from_slice(alloc, view)?;
            let name = Bytes::from_slice(alloc, name)?;
            Ok(Some((Token::FieldOf(view, name), rest)))
        }
        _ => Ok(None),
    }
}

// A column's name, behind the dot.
fn column_token(alloc: Global, text: &[u8]) -> Result<Found<'_>, NoMemory>
    ensures { IfOk result (λ found. option_map (λ first. (first.0, first.1.now)) found ≡ column_token text.now) }
{
    match text.split_first() {
        Some((quote, inside)) if *quote == b'"' || *quote == b'`' => {
            closed_column(alloc, *quote, inside)
        }
        Some(_) => bare_column(alloc, text),
        None => Ok(None),
    }
}

fn bare_column(alloc: Global, text: &[u8]) -> Result<Found<'_>, NoMemory>
    ensures { IfOk result (λ found. option_map (λ first. (first.0, first.1.now)) found ≡ bare_column (first_name text.now)) }
{
    match first_name(text) {
        Some((name, rest)) => Ok(Some((Token::Column(Bytes::from_slice(alloc, name)?), rest))),
        None => Ok(None),
    }
}

fn closed_column(alloc: Global, quote: u8, inside: &[u8]) -> Result<Found<'_>, NoMemory>
    ensures { IfOk result (λ found. option_map (λ first. (first.0, first.1.now)) found ≡ closed_column quote (first_name inside.now)) }
{
    let Some((name, behind)) = first_name(inside) else {
        return Ok(None);
    };
    match behind.split_first() {
        Some((byte, rest)) if *byte == quote => {
            Ok(Some((Token::Column(Bytes::from_slice(alloc, name)?), rest)))
        }
        _ => Ok(None),
    }
}

// A sign of two bytes, or of one.
fn first_sign(text: &[u8]) -> Found<'_>
    ensures { option_map (λ first. (first.0, first.1.now)) result ≡ first_sign text.now }
{
    let (first, behind) = text.split_first()?;
    if let Some((second, rest)) = behind.split_first() {
        if let Some(token) = two_bytes(*first, *second) {
            return Some((token, rest));
        }
    }
    Some((one_byte(*first)?, behind))
}

fn one_byte(byte: u8) -> Option<Token>
    ensures { result ≡ one_byte byte }
{
    match byte {
        b'=' => Some(Token::Compare(Comparison::Equal)),
        b'<' => Some(Token::Compare(Comparison::Less)),
        b'>' => Some(Token::Compare(Comparison::Greater)),
        b'+' => Some(Token::Sign(Sign::Plus)),
        b'-' => Some(Token::Sign(Sign::Minus)),
        b'*' => Some(Token::Sign(Sign::Times)),
        b'/' => Some(Token::Sign(Sign::Over)),
        b'(' => Some(Token::Sign(Sign::Open)),
        b')' => Some(Token::Sign(Sign::Close)),
        b',' => Some(Token::Sign(Sign::Comma)),
        _ => None,
    }
}

fn two_bytes(first: u8, second: u8) -> Option<Token>
    ensures { result ≡ two_bytes first second }
{
    match (first, second) {
        (b'<', b'=') => Some(Token::Compare(Comparison::AtMost)),
        (b'<', b'>') => Some(Token::Compare(Comparison::NotEqual)),
        (b'!', b'=') => Some(Token::Compare(Comparison::NotEqual)),
        (b'>', b'=') => Some(Token::Compare(Comparison::AtLeast)),
        (b'|', b'|') => Some(Token::Sign(Sign::Concat)),
        _ => None,
    }
}
