ghost use Rattle.std.specs.Prelude.{◌≡◌, IfOk, Some, codes};
ghost use Rattle.std.specs.List.{list_all};
ghost use Rattle.std.specs.Option.{option_and_then};
ghost use Rattle.lk_params.specs.Parameters.{last_named};
ghost use Rattle.lk_view_field.specs.FieldValues.{ascends, bounds_in, bounds_with, is_below_next, is_digit, is_whole, or_none, tiers_of, whole, wholes};

use lk_params::{last_named, words};
use lk_read::{Item, Node};
use lk_val::{Items, NoMemory, Num, Text};
use std::alloc::Global;

/// The bounds of a tier, ascending whole numbers; none where they are missing or no such list.
/// (Looker, LookML reference: tiers)
pub fn tiers_of(alloc: Global, items: &[Item]) -> Result<Items<i64>, NoMemory>
    ensures { IfOk result (λ tiers. tiers ≡ tiers_of (last_named (codes "tiers") items.now)) }
{
    match last_named("tiers", items) {
        None => Ok(Items::new(alloc)),
        Some(item) => Ok(or_none(alloc, bounds_in(alloc, &item.value)?)),
    }
}

fn or_none(alloc: Global, bounds: Option<Items<i64>>) -> Items<i64>
    ensures { result ≡ or_none bounds }
{
    match bounds {
        None => Items::new(alloc),
        Some(bounds) => bounds,
    }
}

/// One or more whole numbers, ascending, of a list of words or strings; none of another value.
pub fn bounds_in(alloc: Global, value: &Node) -> Result<Option<Items<i64>>, NoMemory>
    ensures { IfOk result (λ bounds. bounds ≡ bounds_in value.now) }
{
    match words(alloc, value)? {
        None => Ok(None),
        Some(texts) => bounds_of(alloc, texts.as_slice()),
    }
}

fn bounds_of(alloc: Global, texts: &[Text]) -> Result<Option<Items<i64>>, NoMemory>
    ensures { IfOk result (λ bounds. bounds ≡ option_and_then bounds_with (wholes texts.now)) }
{
    match wholes(alloc, texts)? {
        None => Ok(None),
        Some(numbers) => Ok(bounds_with(numbers)),
    }
}

fn bounds_with(numbers: Items<i64>) -> Option<Items<i64>>
    ensures { result ≡ bounds_with numbers }
{
    if !numbers.is_empty() && ascends(numbers.as_slice()) {
        Some(numbers)
    } else {
        None
    }
}

fn wholes(alloc: Global, texts: &[Text]) -> Result<Option<Items<i64>>, NoMemory>
    ensures { IfOk result (λ numbers. numbers ≡ wholes texts.now) }
{
    let mut numbers = Items::new(alloc);
    for text in texts {
        let Some(number) = whole(text.as_bytes()) else {
            return Ok(None);
        };
        numbers.push(number)?;
    }
    Ok(Some(numbers))
}

// The whole number of a text, within the range of numbers.
fn whole(text: &[u8]) -> Option<i64>
    ensures { result ≡ whole text.now }
{
    if !is_whole(text) {
        return None;
    }
    match Num::read(text) {
        Ok(number) => Some(number.0 / 10_000),
        Err(_) => None,
    }
}

fn is_whole(text: &[u8]) -> bool
    ensures { result ≡ is_whole text.now }
{
    match text {
        [] => false,
        [first, rest @ ..] => {
            if *first == b'-' {
                !rest.is_empty() && are_digits(rest)
            } else {
                is_digit(*first) && are_digits(rest)
            }
        }
    }
}

fn are_digits(bytes: &[u8]) -> bool
    ensures { result ≡ list_all is_digit bytes.now }
{
    bytes.iter().all(|byte| is_digit(*byte))
}

fn is_digit(byte: u8) -> bool
    ensures { result ≡ is_digit byte }
{
    48 <= byte && byte <= 57
}

fn ascends(numbers: &[i64]) -> bool
    ensures { result ≡ ascends numbers.now }
{
    for place in 0..numbers.len() {
        if !is_below_next(numbers[place], &numbers[place + 1..]) {
            return false;
        }
    }
    true
}

fn is_below_next(number: i64, rest: &[i64]) -> bool
    ensures { result ≡ is_below_next number rest.now }
{
    match rest {
        [] => true,
        [next, ..] => number < *next,
    }
}
