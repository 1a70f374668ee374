ghost use Rattle.std.specs.Prelude.{◌≡◌, ◌∷◌, ◌≤◌, IfOk, Some, drop, length, option_map, take};
ghost use Rattle.lk_val.specs.declared.value.Value.TheVariants as value;
ghost use Rattle.lk_cell.specs.CellValues.{number_cell};
ghost use Rattle.lk_sql_read.specs.Quoting.{first_quoted, first_text};
ghost use Rattle.lk_sql_read.specs.Tokens.{closed, closed_pattern, column_token, dotted_column, first_day, first_moment, first_number, first_payload, first_token, is_of_number, named_column, number_length, pattern_token, text_token, word_token};

use crate::quoting::{first_quoted, first_text, pieces_of};
use crate::word::{Word, first_word};
use lk_cell::{read_day, read_moment};
use lk_types::Piece;
use lk_val::{Items, NoMemory, Num, Text, Value};
use std::alloc::Global;

/// A token of printed SQL.
#[derive(Drop)]
pub enum Token {
    Word(Word),
    /// A column of a part, both by name.
    Column { part: Text, name: Text },
    /// A text, a number, a day or a moment; other values are words.
    Literal(Value),
    /// LIKE and its pattern, with the bracket behind it.
    Like(Items<Piece>),
}

// A token and what is behind it.
type Found<'a> = Option<(Token, &'a [u8])>;

/// The token in front of a text, and what is behind it.
pub fn first_token(alloc: Global, text: &[u8]) -> Result<Option<(Token, &[u8])>, NoMemory>
    ensures { IfOk result (λ found. option_map (λ first. (first.0, first.1.now)) found ≡ first_token text.now) }
{
    match first_word(text) {
        Some((word, rest)) => word_token(alloc, word, rest),
        None => first_payload(alloc, text),
    }
}

// A word as a token. LIKE takes its pattern with it.
fn word_token(alloc: Global, word: Word, rest: &[u8]) -> Result<Found<'_>, NoMemory>
    ensures { IfOk result (λ found. option_map (λ first. (first.0, first.1.now)) found ≡ word_token word rest.now) }
{
    match word {
        Word::Like => first_pattern(alloc, rest),
        _ => Ok(Some((Token::Word(word), rest))),
    }
}

// A pattern in quotes, and the bracket behind it.
fn first_pattern(alloc: Global, text: &[u8]) -> Result<Found<'_>, NoMemory>
    ensures { IfOk result (λ found. option_map (λ first. (first.0, first.1.now)) found ≡ pattern_token (first_quoted 39 text.now)) }
{
    let Some((pattern, behind)) = first_quoted(alloc, b'\'', text)? else {
        return Ok(None);
    };
    match behind.split_first() {
        Some((b')', rest)) => Ok(Some((Token::Like(pieces_of(alloc, pattern.as_slice())?), rest))),
        _ => Ok(None),
    }
}

// What begins with no word.
fn first_payload(alloc: Global, text: &[u8]) -> Result<Found<'_>, NoMemory>
    ensures { IfOk result (λ found. option_map (λ first. (first.0, first.1.now)) found ≡ first_payload text.now) }
{
    match text.first() {
        None => Ok(None),
        Some(b'"') => first_column(alloc, text),
        Some(b'\'') => first_literal_text(alloc, text),
        Some(b'D') => Ok(first_day(text.strip_prefix(b"DATE '"))),
        Some(b'T') => Ok(first_moment(text.strip_prefix(b"TIMESTAMP '"))),
        Some(_) => Ok(first_number(text)),
    }
}

fn first_column(alloc: Global, text: &[u8]) -> Result<Found<'_>, NoMemory>
    ensures { IfOk result (λ found. option_map (λ first. (first.0, first.1.now)) found ≡ column_token (first_text 34 text.now)) }
{
    let Some((part, behind)) = first_text(alloc, b'"', text)? else {
        return Ok(None);
    };
    match behind.split_first() {
        Some((b'.', rest)) => named_column(alloc, part, rest),
        _ => Ok(None),
    }
}

fn named_column(alloc: Global, part: Text, text: &[u8]) -> Result<Found<'_>, NoMemory>
    ensures { IfOk result (λ found. option_map (λ first. (first.0, first.1.now)) found ≡ named_column part (first_text 34 text.now)) }
{
    match first_text(alloc, b'"', text)? {
        Some((name, rest)) => Ok(Some((Token::Column { part, name }, rest))),
        None => Ok(None),
    }
}

fn first_literal_text(alloc: Global, text: &[u8]) -> Result<Found<'_>, NoMemory>
    ensures { IfOk result (λ found. option_map (λ first. (first.0, first.1.now)) found ≡ text_token (first_text 39 text.now)) }
{
    match first_text(alloc, b'\'', text)? {
        Some((text, rest)) => Ok(Some((Token::Literal(Value::Text(text)), rest))),
        None => Ok(None),
    }
}

// A number, up to the first byte that no number has.
fn first_number(text: &[u8]) -> Found<'_>
    ensures { option_map (λ first. (first.0, first.1.now)) result ≡ first_number text.now }
{
    let (number, rest) = text.split_at(number_length(text));
    match Num::read(number) {
        Ok(number) => Some((Token::Literal(Value::Num(number)), rest)),
        Err(_) => None,
    }
}

fn number_length(text: &[u8]) -> usize
    ensures value { result ≡ number_length text.now }
    ensures within { result ≤ length text.now }
{
    let mut count = 0;
    for byte in text {
        if !is_of_number(*byte) {
            return count;
        }
        count += 1;
    }
    count
}

fn is_of_number(byte: u8) -> bool
    ensures { result ≡ is_of_number byte }
{
    byte.is_ascii_digit() || byte == b'.' || byte == b'-'
}

fn first_day(text: Option<&[u8]>) -> Found<'_>
    ensures { option_map (λ first. (first.0, first.1.now)) result ≡ first_day (option_map (λ text. text.now) text.entry) }
{
    let (day, rest) = parted(text?, 10);
    closed(Value::Day(read_day(day)?), rest)
}

fn first_moment(text: Option<&[u8]>) -> Found<'_>
    ensures { option_map (λ first. (first.0, first.1.now)) result ≡ first_moment (option_map (λ text. text.now) text.entry) }
{
    let (moment, rest) = parted(text?, 19);
    closed(Value::Moment(read_moment(moment)?), rest)
}

// The first so many bytes of a text, or all, and what is behind them.
fn parted(text: &[u8], count: usize) -> (&[u8], &[u8])
    ensures front { result.0.now ≡ take count text.now }
    ensures rest { result.1.now ≡ drop count text.now }
{
    text.split_at(text.len().min(count))
}

// A day or a moment that a quote closes.
fn closed(value: Value, text: &[u8]) -> Found<'_>
    ensures { option_map (λ first. (first.0, first.1.now)) result ≡ closed value text.now }
{
    match text.split_first() {
        Some((b'\'', rest)) => Some((Token::Literal(value), rest)),
        _ => None,
    }
}
