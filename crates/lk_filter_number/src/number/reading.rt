ghost use Rattle.std.specs.Prelude.{◌≡◌, ◌∷◌, List, Some, IfOk, IfSome, option_map};
ghost use Rattle.std.specs.Option.{option_and_then};
ghost use Rattle.lk_filter_number.specs.Numbers.{IsNumberFilter, NumberToken, number_filter};
ghost use Rattle.lk_filter_number.specs.NumberReading.{behind_word, first_number, order_of, first_order, first_compared, and_compared, further_compared, range_from_number, range_up_to, range_compared, one_word, first_end, interval_end, range_interval, range_of, tested, differing, item_of, further_item, further_from, items_of, is_same_word};
ghost use Rattle.lk_types.specs.declared.filter.Filter.{Filter};

use crate::number::items::{
    Bracket, Compared, FurtherItem, NumberItem, NumberItems, NumberRange, Order, Separator,
    UnlikeSign, WrittenEnd,
};
use crate::number::meaning::number_filter;
use crate::number::words::{NUMBER_WORDS, NumberWord};
use lk_grammar::{Numbers, Token, read_words_and_literals};
use lk_types::Filter;
use lk_val::{Bytes, Items, NoMemory};
use std::alloc::Global;

type NumberToken = Token<NumberWord>;

/// The filter that a text spells as one of numbers, and none where it spells none or one of its numbers doesn't read.
pub fn read_numbers(alloc: Global, text: &[u8]) -> Result<Option<Filter>, NoMemory>
    ensures spelled { IfOk result (λ found. IfSome found (λ f. IsNumberFilter f text.now)) }
    ensures every { IfOk result (λ found. (f : Filter) → IsNumberFilter f text.now → found ≡ Some f) }
{
    let Some(tokens) = read_words_and_literals(alloc, b" ", &Numbers, &NUMBER_WORDS, text)? else {
        return Ok(None);
    };
    read_tokens(alloc, tokens.as_slice())
}

fn read_tokens(alloc: Global, tokens: &[NumberToken]) -> Result<Option<Filter>, NoMemory>
    ensures { IfOk result (λ found. found ≡ option_and_then number_filter (items_of tokens.now)) }
{
    match items_of(alloc, tokens)? {
        None => Ok(None),
        Some(items) => number_filter(alloc, &items),
    }
}

fn items_of(alloc: Global, tokens: &[NumberToken]) -> Result<Option<Option<NumberItems>>, NoMemory>
    ensures { IfOk result (λ items. items ≡ items_of tokens.now) }
{
    if tokens.is_empty() {
        return Ok(Some(None));
    }
    let Some((first, rest)) = item_of(alloc, tokens)? else {
        return Ok(None);
    };
    match further_items(alloc, tokens, rest)? {
        None => Ok(None),
        Some(more) => Ok(Some(Some(NumberItems { first, more }))),
    }
}

fn further_items(
    alloc: Global,
    fuel: &[NumberToken],
    tokens: &[NumberToken],
) -> Result<Option<Items<FurtherItem>>, NoMemory>
    ensures { IfOk result (λ items. items ≡ further_from fuel.now tokens.now) }
{
    let mut items = Items::new(alloc);
    let mut rest = tokens;
    for _used in fuel {
        if rest.is_empty() {
            return Ok(Some(items));
        }
        let Some((item, behind)) = further_item(alloc, rest)? else {
            return Ok(None);
        };
        items.push(item)?;
        rest = behind;
    }
    if rest.is_empty() {
        Ok(Some(items))
    } else {
        Ok(None)
    }
}

fn further_item<'a>(
    alloc: Global,
    tokens: &'a [NumberToken],
) -> Result<Option<(FurtherItem, &'a [NumberToken])>, NoMemory>
    ensures { IfOk result (λ found. option_map (λ x. (x.0, x.1.now)) found ≡ further_item tokens.now) }
{
    let or = (NumberWord::Or, Separator::Or);
    let comma = (NumberWord::Comma, Separator::Comma);
    let Some((separator, rest)) = one_word(or, comma, tokens) else {
        return Ok(None);
    };
    match item_of(alloc, rest)? {
        None => Ok(None),
        Some((item, behind)) => Ok(Some((FurtherItem { separator, item }, behind))),
    }
}

fn item_of<'a>(
    alloc: Global,
    tokens: &'a [NumberToken],
) -> Result<Option<(NumberItem, &'a [NumberToken])>, NoMemory>
    ensures { IfOk result (λ found. option_map (λ x. (x.0, x.1.now)) found ≡ item_of tokens.now) }
{
    if let Some(rest) = behind_word(NumberWord::Not, tokens) {
        if let Some(found) = tested(alloc, true, rest)? {
            return Ok(Some(found));
        }
    }
    if let Some(found) = tested(alloc, false, tokens)? {
        return Ok(Some(found));
    }
    differing(alloc, tokens)
}

fn tested<'a>(
    alloc: Global,
    negated: bool,
    tokens: &'a [NumberToken],
) -> Result<Option<(NumberItem, &'a [NumberToken])>, NoMemory>
    ensures { IfOk result (λ found. option_map (λ x. (x.0, x.1.now)) found ≡ tested negated tokens.now) }
{
    if let Some(rest) = behind_word(NumberWord::Null, tokens) {
        return Ok(Some((NumberItem::Null(negated), rest)));
    }
    match range_of(alloc, tokens)? {
        None => Ok(None),
        Some((range, rest)) => Ok(Some((NumberItem::Range(negated, range), rest))),
    }
}

fn differing<'a>(
    alloc: Global,
    tokens: &'a [NumberToken],
) -> Result<Option<(NumberItem, &'a [NumberToken])>, NoMemory>
    ensures { IfOk result (λ found. option_map (λ x. (x.0, x.1.now)) found ≡ differing tokens.now) }
{
    let exclamation = (NumberWord::Unequal, UnlikeSign::Exclamation);
    let angles = (NumberWord::Unlike, UnlikeSign::Angles);
    let Some((sign, rest)) = one_word(exclamation, angles, tokens) else {
        return Ok(None);
    };
    match first_number(alloc, rest)? {
        None => Ok(None),
        Some((number, behind)) => Ok(Some((NumberItem::Unlike(sign, number), behind))),
    }
}

fn range_of<'a>(
    alloc: Global,
    tokens: &'a [NumberToken],
) -> Result<Option<(NumberRange, &'a [NumberToken])>, NoMemory>
    ensures { IfOk result (λ found. option_map (λ x. (x.0, x.1.now)) found ≡ range_of tokens.now) }
{
    if let Some(found) = range_from_number(alloc, tokens)? {
        return Ok(Some(found));
    }
    if let Some(found) = range_up_to(alloc, tokens)? {
        return Ok(Some(found));
    }
    if let Some(found) = range_compared(alloc, tokens)? {
        return Ok(Some(found));
    }
    range_interval(alloc, tokens)
}

fn range_from_number<'a>(
    alloc: Global,
    tokens: &'a [NumberToken],
) -> Result<Option<(NumberRange, &'a [NumberToken])>, NoMemory>
    ensures { IfOk result (λ found. option_map (λ x. (x.0, x.1.now)) found ≡ range_from_number tokens.now) }
{
    let Some((low, rest)) = first_number(alloc, tokens)? else {
        return Ok(None);
    };
    let Some(behind) = behind_word(NumberWord::To, rest) else {
        return Ok(Some((NumberRange::Is(low), rest)));
    };
    match first_number(alloc, behind)? {
        None => Ok(Some((NumberRange::From(low), behind))),
        Some((high, further)) => Ok(Some((NumberRange::Between(low, high), further))),
    }
}

fn range_up_to<'a>(
    alloc: Global,
    tokens: &'a [NumberToken],
) -> Result<Option<(NumberRange, &'a [NumberToken])>, NoMemory>
    ensures { IfOk result (λ found. option_map (λ x. (x.0, x.1.now)) found ≡ range_up_to tokens.now) }
{
    let Some(rest) = behind_word(NumberWord::To, tokens) else {
        return Ok(None);
    };
    match first_number(alloc, rest)? {
        None => Ok(None),
        Some((high, behind)) => Ok(Some((NumberRange::UpTo(high), behind))),
    }
}

fn range_compared<'a>(
    alloc: Global,
    tokens: &'a [NumberToken],
) -> Result<Option<(NumberRange, &'a [NumberToken])>, NoMemory>
    ensures { IfOk result (λ found. option_map (λ x. (x.0, x.1.now)) found ≡ range_compared tokens.now) }
{
    let Some((first, rest)) = first_compared(alloc, tokens)? else {
        return Ok(None);
    };
    let (more, behind) = further_compared(alloc, rest)?;
    Ok(Some((NumberRange::Compare(first, more), behind)))
}

fn further_compared<'a>(
    alloc: Global,
    tokens: &'a [NumberToken],
) -> Result<(Items<Compared>, &'a [NumberToken]), NoMemory>
    ensures { IfOk result (λ found. (found.0, found.1.now) ≡ further_compared tokens.now) }
{
    let mut more = Items::new(alloc);
    let mut rest = tokens;
    while let Some((and, behind)) = rest.split_first() {
        let Some((order, behind)) = behind.split_first() else {
            return Ok((more, rest));
        };
        let Some((number, behind)) = behind.split_first() else {
            return Ok((more, rest));
        };
        let Some(compared) = and_compared(alloc, and, order, number)? else {
            return Ok((more, rest));
        };
        more.push(compared)?;
        rest = behind;
    }
    Ok((more, rest))
}

fn and_compared(
    alloc: Global,
    and: &NumberToken,
    order: &NumberToken,
    number: &NumberToken,
) -> Result<Option<Compared>, NoMemory>
    ensures { IfOk result (λ found. found ≡ and_compared and.now order.now number.now) }
{
    match (and, order, number) {
        (Token::Word(and), Token::Word(order), Token::Literal(number)) => {
            if !is_same_word(NumberWord::And, *and) {
                return Ok(None);
            }
            match order_of(*order) {
                None => Ok(None),
                Some(comparison) => Ok(Some(Compared {
                    comparison,
                    number: number.copy(alloc)?,
                })),
            }
        }
        _ => Ok(None),
    }
}

fn range_interval<'a>(
    alloc: Global,
    tokens: &'a [NumberToken],
) -> Result<Option<(NumberRange, &'a [NumberToken])>, NoMemory>
    ensures { IfOk result (λ found. option_map (λ x. (x.0, x.1.now)) found ≡ range_interval tokens.now) }
{
    let square = (NumberWord::OpenSquare, Bracket::Square);
    let round = (NumberWord::OpenRound, Bracket::Round);
    let Some((open, rest)) = one_word(square, round, tokens) else {
        return Ok(None);
    };
    match first_end(alloc, rest)? {
        None => Ok(None),
        Some((low, behind)) => interval_end(alloc, open, low, behind),
    }
}

fn interval_end<'a>(
    alloc: Global,
    bracket: Bracket,
    low: WrittenEnd,
    tokens: &'a [NumberToken],
) -> Result<Option<(NumberRange, &'a [NumberToken])>, NoMemory>
    ensures { IfOk result (λ found. option_map (λ x. (x.0, x.1.now)) found ≡ interval_end bracket low tokens.now) }
{
    let Some(rest) = behind_word(NumberWord::Comma, tokens) else {
        return Ok(None);
    };
    let Some((high, behind)) = first_end(alloc, rest)? else {
        return Ok(None);
    };
    let square = (NumberWord::CloseSquare, Bracket::Square);
    let round = (NumberWord::CloseRound, Bracket::Round);
    match one_word(square, round, behind) {
        None => Ok(None),
        Some((close, further)) => Ok(Some((
            NumberRange::Interval(bracket, low, high, close),
            further,
        ))),
    }
}

fn first_end<'a>(
    alloc: Global,
    tokens: &'a [NumberToken],
) -> Result<Option<(WrittenEnd, &'a [NumberToken])>, NoMemory>
    ensures { IfOk result (λ found. option_map (λ x. (x.0, x.1.now)) found ≡ first_end tokens.now) }
{
    if let Some((number, rest)) = first_number(alloc, tokens)? {
        return Ok(Some((WrittenEnd::Number(number), rest)));
    }
    if let Some(rest) = behind_word(NumberWord::Inf, tokens) {
        return Ok(Some((WrittenEnd::Inf, rest)));
    }
    match behind_word(NumberWord::MinusInf, tokens) {
        None => Ok(None),
        Some(rest) => Ok(Some((WrittenEnd::MinusInf, rest))),
    }
}

fn first_compared<'a>(
    alloc: Global,
    tokens: &'a [NumberToken],
) -> Result<Option<(Compared, &'a [NumberToken])>, NoMemory>
    ensures { IfOk result (λ found. option_map (λ x. (x.0, x.1.now)) found ≡ first_compared tokens.now) }
{
    let Some((comparison, rest)) = first_order(tokens) else {
        return Ok(None);
    };
    match first_number(alloc, rest)? {
        None => Ok(None),
        Some((number, behind)) => Ok(Some((Compared { comparison, number }, behind))),
    }
}

fn first_order(tokens: &[NumberToken]) -> Option<(Order, &[NumberToken])>
    ensures { option_map (λ x. (x.0, x.1.now)) result ≡ first_order tokens.now }
{
    match tokens.split_first() {
        Some((Token::Word(word), rest)) => match order_of(*word) {
            None => None,
            Some(order) => Some((order, rest)),
        },
        _ => None,
    }
}

fn order_of(word: NumberWord) -> Option<Order>
    ensures { result ≡ order_of word }
{
    match word {
        NumberWord::Less => Some(Order::Less),
        NumberWord::AtMost => Some(Order::AtMost),
        NumberWord::Greater => Some(Order::Greater),
        NumberWord::AtLeast => Some(Order::AtLeast),
        _ => None,
    }
}

fn first_number<'a>(
    alloc: Global,
    tokens: &'a [NumberToken],
) -> Result<Option<(Bytes, &'a [NumberToken])>, NoMemory>
    ensures { IfOk result (λ found. option_map (λ x. (x.0, x.1.now)) found ≡ first_number tokens.now) }
{
    match tokens.split_first() {
        Some((Token::Literal(number), rest)) => Ok(Some((number.copy(alloc)?, rest))),
        _ => Ok(None),
    }
}

/// What one of two words stands for, where the tokens begin with it, and what is behind it.
fn one_word<T: Copy>(
    one: (NumberWord, T),
    other: (NumberWord, T),
    tokens: &[NumberToken],
) -> Option<(T, &[NumberToken])>
    ensures { option_map (λ x. (x.0, x.1.now)) result ≡ one_word one.0 one.1 other.0 other.1 tokens.now }
{
    if let Some(rest) = behind_word(one.0, tokens) {
        return Some((one.1, rest));
    }
    match behind_word(other.0, tokens) {
        None => None,
        Some(rest) => Some((other.1, rest)),
    }
}

fn behind_word(word: NumberWord, tokens: &[NumberToken]) -> Option<&[NumberToken]>
    ensures { option_map (λ rest. rest.now) result ≡ behind_word word tokens.now }
{
    match tokens.split_first() {
        Some((Token::Word(first), rest)) if is_same_word(word, *first) => Some(rest),
        _ => None,
    }
}

fn is_same_word(word: NumberWord, other: NumberWord) -> bool
    ensures { result ≡ is_same_word word other }
{
    word == other
}
