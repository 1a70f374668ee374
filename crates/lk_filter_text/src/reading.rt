ghost use Rattle.std.specs.Prelude.{◌≡◌, ◌++◌, ◌∷◌, [], if◌then◌else◌, Some, OnOk, List, IfOk, IfSome, option_map, map};
ghost use Rattle.lk_filter_text.specs.Texts.{IsTextFilter, text_filter, is_space, is_minus, is_comma, is_character};
ghost use Rattle.lk_filter_text.specs.TextReading.{read_all, are_spaces, parts_left, before_comma, behind_comma, read_part, solid_part, without_front, without_end};
ghost use Rattle.lk_types.specs.declared.filter.Filter.{Filter};

use crate::characters::Characters;
use crate::patterns::text_test;
use crate::words::{TEXT_WORDS, TextToken, TextWord};
use lk_grammar::{Token, read_words_and_literals};
use lk_types::{Filter, Test};
use lk_val::{Items, NoMemory};
use std::alloc::Global;

/// The filter that a text spells as one of texts, and none where it spells none.
pub fn read_texts(alloc: Global, text: &[u8]) -> Result<Option<Filter>, NoMemory>
    ensures spelled { IfOk result (λ found. IfSome found (λ f. IsTextFilter f text.now)) }
    ensures every { IfOk result (λ found. (f : Filter) → IsTextFilter f text.now → found ≡ Some f) }
{
    let Some(tokens) = read_words_and_literals(alloc, b"", &Characters, &TEXT_WORDS, text)? else {
        return Ok(None);
    };
    read_all(alloc, tokens.as_slice())
}

fn read_all(alloc: Global, tokens: &[TextToken]) -> Result<Option<Filter>, NoMemory>
    ensures { IfOk result (λ found. found ≡ option_map text_filter (read_all tokens.now)) }
{
    if are_spaces(tokens) {
        return Ok(Some(Filter {
            include: Items::new(alloc),
            exclude: Items::new(alloc),
            relative: false,
        }));
    }
    read_parts(alloc, tokens)
}

fn read_parts(alloc: Global, tokens: &[TextToken]) -> Result<Option<Filter>, NoMemory>
    ensures { IfOk result (λ found. found ≡ option_map text_filter (parts_left (Some tokens.now))) }
{
    let mut include = Items::new(alloc);
    let mut exclude = Items::new(alloc);
    let mut left = Some(tokens);
    while let Some(rest) = left {
        let Some((excluded, content)) = read_part(before_comma(rest)) else {
            return Ok(None);
        };
        let test = text_test(alloc, content)?;
        push_test(&mut include, &mut exclude, excluded, test)?;
        left = behind_comma(rest);
    }
    Ok(Some(Filter {
        include,
        exclude,
        relative: false,
    }))
}

fn push_test(
    include: &mut Items<Test>,
    exclude: &mut Items<Test>,
    excluded: bool,
    test: Test,
) -> Result<(), NoMemory>
    ensures includes { OnOk result (include.new ≡ (if excluded then include.old else include.old ++ test ∷ [])) }
    ensures excludes { OnOk result (exclude.new ≡ (if excluded then exclude.old ++ test ∷ [] else exclude.old)) }
{
    if excluded {
        exclude.push(test)
    } else {
        include.push(test)
    }
}

/// A pattern, and whether it is an exclude.
fn read_part(tokens: &[TextToken]) -> Option<(bool, &[TextToken])>
    ensures { option_map (λ p. (p.0, p.1.now)) result ≡ read_part tokens.now }
{
    let solid = without_end(without_front(tokens));
    let Some((first, rest)) = solid.split_first() else {
        return None;
    };
    if !is_minus(first) {
        return Some((false, solid));
    }
    let content = without_front(rest);
    if content.is_empty() {
        return None;
    }
    Some((true, content))
}

fn before_comma(tokens: &[TextToken]) -> &[TextToken]
    ensures { result.now ≡ before_comma tokens.now }
{
    let mut count = 0;
    for token in tokens {
        if is_comma(token) {
            return &tokens[..count];
        }
        count += 1;
    }
    tokens
}

fn behind_comma(tokens: &[TextToken]) -> Option<&[TextToken]>
    ensures { option_map (λ rest. rest.now) result ≡ behind_comma tokens.now }
{
    let mut rest = tokens;
    while let Some((first, behind)) = rest.split_first() {
        if is_comma(first) {
            return Some(behind);
        }
        rest = behind;
    }
    None
}

fn without_front(tokens: &[TextToken]) -> &[TextToken]
    ensures { result.now ≡ without_front tokens.now }
{
    let mut rest = tokens;
    while let Some((first, behind)) = rest.split_first() {
        if !is_space(first) {
            return rest;
        }
        rest = behind;
    }
    rest
}

fn without_end(tokens: &[TextToken]) -> &[TextToken]
    ensures { result.now ≡ without_end tokens.now }
{
    let mut front = tokens;
    while let Some((last, before)) = front.split_last() {
        if !is_space(last) {
            return front;
        }
        front = before;
    }
    front
}

fn are_spaces(tokens: &[TextToken]) -> bool
    ensures { result ≡ are_spaces tokens.now }
{
    tokens.iter().all(is_space)
}

fn is_space(token: &TextToken) -> bool
    ensures { result ≡ is_space token.now }
{
    is_character(b' ', token)
}

fn is_minus(token: &TextToken) -> bool
    ensures { result ≡ is_minus token.now }
{
    is_character(b'-', token)
}

fn is_character(character: u8, token: &TextToken) -> bool
    ensures { result ≡ is_character character token.now }
{
    match token {
        Token::Word(_) => false,
        Token::Literal(text) => match text.as_slice().split_first() {
            None => false,
            Some((first, rest)) => rest.is_empty() && *first == character,
        },
    }
}

fn is_comma(token: &TextToken) -> bool
    ensures { result ≡ is_comma token.now }
{
    match token {
        Token::Word(TextWord::Comma) => true,
        _ => false,
    }
}
