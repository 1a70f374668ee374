ghost use Rattle.std.specs.Prelude.{◌≡◌, ◌∷◌, Some, IfOk, IfSome, option_map};
ghost use Rattle.std.specs.Option.{option_and_then};
ghost use Rattle.lk_filter_date.specs.Dates.{IsDateFilter, date_filter};
ghost use Rattle.lk_filter_date.specs.DateReading.{item_of_literal, item_of_word, item_of, further_item, further_from, items_of};
ghost use Rattle.lk_types.specs.declared.filter.Filter.{Filter};

use crate::items::DateItem;
use crate::literal::DateLiterals;
use crate::meaning::date_filter;
use crate::words::{DATE_WORDS, DateWord, Plurality};
use lk_grammar::{Token, read_words_and_literals};
use lk_types::Filter;
use lk_val::{Bytes, Items, NoMemory};
use std::alloc::Global;

type DateToken = Token<DateWord>;

/// The filter that a text spells as one of dates, and none where it spells none. (Looker, filter expressions: date)
pub fn read_dates(alloc: Global, text: &[u8]) -> Result<Option<Filter>, NoMemory>
    ensures spelled { IfOk result (λ found. IfSome found (λ f. IsDateFilter f text.now)) }
    ensures every { IfOk result (λ found. (f : Filter) → IsDateFilter f text.now → found ≡ Some f) }
{
    let Some(tokens) = read_words_and_literals(alloc, b" ", &DateLiterals, &DATE_WORDS, text)?
    else {
        return Ok(None);
    };
    read_tokens(alloc, tokens.as_slice())
}

fn read_tokens(alloc: Global, tokens: &[DateToken]) -> Result<Option<Filter>, NoMemory>
    ensures { IfOk result (λ found. found ≡ option_and_then date_filter (items_of tokens.now)) }
{
    match items_of(alloc, tokens)? {
        None => Ok(None),
        Some(items) => date_filter(alloc, items.as_slice()),
    }
}

fn items_of(alloc: Global, tokens: &[DateToken]) -> Result<Option<Items<DateItem>>, NoMemory>
    ensures { IfOk result (λ items. items ≡ items_of tokens.now) }
{
    if tokens.is_empty() {
        return Ok(Some(Items::new(alloc)));
    }
    match item_of(alloc, tokens)? {
        None => Ok(None),
        Some((first, rest)) => further_items(alloc, first, tokens, rest),
    }
}

fn further_items(
    alloc: Global,
    first: DateItem,
    fuel: &[DateToken],
    tokens: &[DateToken],
) -> Result<Option<Items<DateItem>>, NoMemory>
    ensures { IfOk result (λ items. items ≡ option_map (λ more. first ∷ more) (further_from fuel.now tokens.now)) }
{
    let mut items = Items::new(alloc);
    items.push(first)?;
    let mut rest = tokens;
    for _used in fuel {
        if rest.is_empty() {
            return Ok(Some(items));
        }
        let Some((item, behind)) = further_item(alloc, rest)? else {
            return Ok(None);
        };
        items.push(item)?;
        rest = behind;
    }
    if rest.is_empty() {
        Ok(Some(items))
    } else {
        Ok(None)
    }
}

fn further_item<'a>(
    alloc: Global,
    tokens: &'a [DateToken],
) -> Result<Option<(DateItem, &'a [DateToken])>, NoMemory>
    ensures { IfOk result (λ found. option_map (λ x. (x.0, x.1.now)) found ≡ further_item tokens.now) }
{
    match tokens.split_first() {
        Some((Token::Word(DateWord::Comma), rest)) => item_of(alloc, rest),
        _ => Ok(None),
    }
}

fn item_of<'a>(
    alloc: Global,
    tokens: &'a [DateToken],
) -> Result<Option<(DateItem, &'a [DateToken])>, NoMemory>
    ensures { IfOk result (λ found. option_map (λ x. (x.0, x.1.now)) found ≡ item_of tokens.now) }
{
    match tokens.split_first() {
        None => Ok(None),
        Some((Token::Literal(text), rest)) => Ok(Some(item_of_literal(alloc, text, rest)?)),
        Some((Token::Word(word), rest)) => item_of_word(alloc, *word, rest),
    }
}

fn item_of_word<'a>(
    alloc: Global,
    word: DateWord,
    tokens: &'a [DateToken],
) -> Result<Option<(DateItem, &'a [DateToken])>, NoMemory>
    ensures { IfOk result (λ found. option_map (λ x. (x.0, x.1.now)) found ≡ item_of_word word tokens.now) }
{
    match (word, tokens) {
        (DateWord::Today, rest) => Ok(Some((DateItem::Today, rest))),
        (DateWord::Yesterday, rest) => Ok(Some((DateItem::Yesterday, rest))),
        (DateWord::Null, rest) => Ok(Some((DateItem::Null(false), rest))),
        (DateWord::Before, [Token::Literal(date), rest @ ..]) => {
            Ok(Some((DateItem::Before(date.copy(alloc)?), rest)))
        }
        (DateWord::After, [Token::Literal(date), rest @ ..]) => {
            Ok(Some((DateItem::After(date.copy(alloc)?), rest)))
        }
        (
            DateWord::This,
            [
                Token::Word(DateWord::Unit(period, Plurality::Singular)),
                rest @ ..,
            ],
        ) => { Ok(Some((DateItem::This(*period), rest))) }
        (
            DateWord::Last,
            [
                Token::Word(DateWord::Unit(period, Plurality::Singular)),
                rest @ ..,
            ],
        ) => { Ok(Some((DateItem::Last(*period), rest))) }
        (DateWord::Not, [Token::Word(DateWord::Null), rest @ ..]) => {
            Ok(Some((DateItem::Null(true), rest)))
        }
        _ => Ok(None),
    }
}

fn item_of_literal<'a>(
    alloc: Global,
    literal: &Bytes,
    tokens: &'a [DateToken],
) -> Result<(DateItem, &'a [DateToken]), NoMemory>
    ensures { IfOk result (λ found. (found.0, found.1.now) ≡ item_of_literal literal.now tokens.now) }
{
    let text = literal.copy(alloc)?;
    match tokens {
        [Token::Word(DateWord::To), Token::Literal(upto), rest @ ..] => {
            Ok((DateItem::FromTo(text, upto.copy(alloc)?), rest))
        }
        [
            Token::Word(DateWord::Unit(period, plurality)),
            Token::Word(DateWord::Ago),
            rest @ ..,
        ] => { Ok((DateItem::Ago(text, *period, *plurality), rest)) }
        [Token::Word(DateWord::Unit(period, plurality)), rest @ ..] => {
            Ok((DateItem::Recent(text, *period, *plurality), rest))
        }
        rest => Ok((DateItem::In(text), rest)),
    }
}
