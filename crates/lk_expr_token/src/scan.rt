ghost use Rattle.std.specs.Prelude.{◌≡◌, ℕ, List, IfOk, length, map, option_map};
ghost use Rattle.lk_expr_token.specs.declared.token.Token.{Token};
ghost use Rattle.lk_expr_token.specs.Tokens.{is_space};
ghost use Rattle.lk_expr_token.specs.Terminals.{token_byte};
ghost use Rattle.lk_expr_token.specs.TokenFronts.{IsSpelledThen, IsStuck, IsUnspaced, behind_spaces, behind_tokens, first_terminal, is_unread, terminals_in};

use crate::lexer::{first_token, is_number};
use crate::terminal::{terminal_byte, terminal_of};
use lk_grammar::{Literals, UnsignedNumbers};
use lk_val::NoMemory;
use std::alloc::Global;

/// The terminals of the tokens in front of a text, as far as it is read, each as its byte.
pub fn terminals_in(alloc: Global, text: &[u8]) -> Result<Vec<u8>, NoMemory>
    ensures { IfOk result (λ terminals. terminals.items ≡ terminals_in text.now) }
{
    let mut terminals = Vec::new(alloc);
    let mut rest = text;
    for _byte in text {
        match first_terminal(alloc, text.len(), rest)? {
            Some((terminal, behind)) => {
                terminals.push(terminal)?;
                rest = behind;
            }
            None => return Ok(terminals),
        }
    }
    Ok(terminals)
}

/// What is behind as many tokens in front of a text as there are terminals, and behind the spaces that follow them.
pub fn behind_tokens<'a>(
    alloc: Global,
    terminals: &[u8],
    text: &'a [u8],
) -> Result<&'a [u8], NoMemory>
    ensures { IfOk result (λ rest. rest.now ≡ behind_tokens (length text.now) terminals.now text.now) }
{
    let mut rest = text;
    for _terminal in terminals {
        match first_terminal(alloc, text.len(), rest)? {
            Some((_, behind)) => rest = behind,
            None => return Ok(behind_spaces(rest)),
        }
    }
    Ok(behind_spaces(rest))
}

// The terminal of the token behind the first spaces, as its byte, and what is behind the token.
fn first_terminal<'a>(
    alloc: Global,
    whole: usize,
    text: &'a [u8],
) -> Result<Option<(u8, &'a [u8])>, NoMemory>
    ensures { IfOk result (λ found. option_map (λ first. (first.0, first.1.now)) found ≡ first_terminal whole text.now) }
{
    match first_token(alloc, whole, behind_spaces(text))? {
        Some((token, behind)) => Ok(Some((terminal_byte(terminal_of(&token)), behind))),
        None => Ok(None),
    }
}

// The text behind its first spaces.
fn behind_spaces(text: &[u8]) -> &[u8]
    ensures { result.now ≡ behind_spaces text.now }
{
    let mut rest = text;
    while let Some((byte, behind)) = rest.split_first() {
        if !is_space(*byte) {
            return rest;
        }
        rest = behind;
    }
    rest
}

fn is_space(byte: u8) -> bool
    ensures { result ≡ is_space byte }
{
    byte == b' ' || byte == b'\t' || byte == b'\n' || byte == b'\r'
}

/// Whether a number comes first that no table may hold: it is out of range, or has a digit other than 0 past the
/// fourth place.
pub fn is_unread(text: &[u8]) -> bool
    ensures { result ≡ is_unread text.now }
{
    let (number, _) = text.split_at(UnsignedNumbers.length(text));
    !number.is_empty() && !is_number(number)
}

/// Each text is some tokens, and then what no token and no space begins. `terminals_in` gives the terminals of these
/// tokens, and `behind_tokens` what is behind as many tokens as there are terminals. A law: it computes nothing.
pub fn terminals_are_those_of_tokens()
    ensures some { (text : List ℕ) → (ts : List Token) × IsSpelledThen (length text) (IsStuck (length text)) ts text }
    ensures terminals { (text : List ℕ) (ts : List Token) → IsSpelledThen (length text) (IsStuck (length text)) ts text
        → terminals_in text ≡ map token_byte ts }
    ensures behind { (text rest : List ℕ) (ts : List Token) (terminals : List ℕ) → length terminals ≡ length ts
        → IsUnspaced rest → IsSpelledThen (length text) (λ r. r ≡ rest) ts text
        → behind_tokens (length text) terminals text ≡ rest }
{}
