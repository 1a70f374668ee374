ghost use Rattle.std.specs.Prelude.{◌≡◌, IfOk};
ghost use Rattle.lk_grammar.specs.Words.{is_white};
ghost use Rattle.lk_grammar.specs.Tokens.{tokens_of, skip_spaces};

use lk_val::{Items, NoMemory};
use std::alloc::Global;

/// What takes one token after the other off a text.
pub trait Lexer {
    type Token;

    ghost use Rattle.std.specs.Prelude.{◌≡◌, ℕ, List, Option, IfOk, option_map};

    ghost first_token: { Self → List ℕ → Option (Self.Token × List ℕ) };

    /// The first token of a text that begins with no space, and what is behind it.
    fn first_token<'a>(
        &self,
        alloc: Global,
        text: &'a [u8],
    ) -> Result<Option<(Self::Token, &'a [u8])>, NoMemory>
        ensures { IfOk result (λ found. option_map (λ first. (first.0, first.1.now)) found ≡ first_token self.now text.now) };
}

/// The tokens that the lexer takes off the text one after the other, with spaces before each and behind the last,
/// and none where something else is left.
pub fn read_tokens<L: Lexer>(
    alloc: Global,
    lexer: &L,
    white: &[u8],
    text: &[u8],
) -> Result<Option<Items<L::Token>>, NoMemory>
where
    L::Token: Drop,
    ensures { IfOk result (λ found. found ≡ tokens_of white.now (L.first_token lexer.now) text.now) }
{
    let mut tokens = Items::new(alloc);
    let mut rest = skip_spaces(white, text);
    for _used in text {
        if rest.is_empty() {
            return Ok(Some(tokens));
        }
        let Some((token, behind)) = lexer.first_token(alloc, rest)? else {
            return Ok(None);
        };
        tokens.push(token)?;
        rest = skip_spaces(white, behind);
    }
    if rest.is_empty() {
        Ok(Some(tokens))
    } else {
        Ok(None)
    }
}

fn skip_spaces<'a>(white: &[u8], text: &'a [u8]) -> &'a [u8]
    ensures { result.now ≡ skip_spaces white.now text.now }
{
    let mut rest = text;
    while let Some((first, behind)) = rest.split_first() {
        if !is_white(white, *first) {
            return rest;
        }
        rest = behind;
    }
    rest
}

fn is_white(white: &[u8], byte: u8) -> bool
    ensures { result ≡ is_white white.now byte }
{
    white.iter().any(|space| byte == *space)
}
