// What items mean: the filter of their tests.

ghost use Rattle.std.specs.Prelude.{◌≡◌, ◌∷◌, IfOk, option_map};
ghost use Rattle.lk_types.specs.declared.filter.Test.TheVariants.{Compare};
ghost use Rattle.lk_filter_number.specs.Numbers.{number_filter, num_at, comparison_of, edge_of, compares_of, range_test, item_test, is_negated, is_plain, begins_with_not, is_exclude, is_square, own_test, further_tests, side_tests};

use crate::number::items::{
    Bracket, Compared, NumberItem, NumberItems, NumberRange, Order, WrittenEnd,
};
use lk_types::{Comparison, Edge, End, Filter, Test};
use lk_val::{Items, NoMemory, Num};
use std::alloc::Global;

/// The filter of the items, and none where one of their numbers doesn't read.
pub(crate) fn number_filter(
    alloc: Global,
    items: &Option<NumberItems>,
) -> Result<Option<Filter>, NoMemory>
    ensures { IfOk result (λ found. found ≡ number_filter items.now) }
{
    let Some(items) = items else {
        return Ok(Some(Filter {
            include: Items::new(alloc),
            exclude: Items::new(alloc),
            relative: false,
        }));
    };
    let Some(include) = side_tests(alloc, false, items)? else {
        return Ok(None);
    };
    match side_tests(alloc, true, items)? {
        None => Ok(None),
        Some(exclude) => Ok(Some(Filter {
            include,
            exclude,
            relative: false,
        })),
    }
}

/// The tests of the items that are excludes, or of those that are includes.
fn side_tests(
    alloc: Global,
    side: bool,
    items: &NumberItems,
) -> Result<Option<Items<Test>>, NoMemory>
    ensures { IfOk result (λ found. found ≡ side_tests side items.now) }
{
    let plain = begins_with_not(&items.first);
    let mut tests = Items::new(alloc);
    let Some(own) = own_test(alloc, plain, side, &items.first)? else {
        return Ok(None);
    };
    if let Some(test) = own {
        tests.push(test)?;
    }
    for further in items.more.as_slice() {
        let Some(own) = own_test(alloc, plain, side, &further.item)? else {
            return Ok(None);
        };
        if let Some(test) = own {
            tests.push(test)?;
        }
    }
    Ok(Some(tests))
}

fn own_test(
    alloc: Global,
    plain: bool,
    side: bool,
    item: &NumberItem,
) -> Result<Option<Option<Test>>, NoMemory>
    ensures { IfOk result (λ found. found ≡ own_test plain side item.now) }
{
    if is_exclude(plain, item) != side {
        return Ok(Some(None));
    }
    match item_test(alloc, item)? {
        None => Ok(None),
        Some(test) => Ok(Some(Some(test))),
    }
}

fn is_exclude(plain: bool, item: &NumberItem) -> bool
    ensures { result ≡ is_exclude plain item.now }
{
    is_negated(item) || plain && is_plain(item)
}

fn begins_with_not(item: &NumberItem) -> bool
    ensures { result ≡ begins_with_not item.now }
{
    match item {
        NumberItem::Range(negated, _) => *negated && is_plain(item),
        _ => false,
    }
}

fn is_negated(item: &NumberItem) -> bool
    ensures { result ≡ is_negated item.now }
{
    match item {
        NumberItem::Range(negated, _) | NumberItem::Null(negated) => *negated,
        NumberItem::Unlike(_, _) => true,
    }
}

fn is_plain(item: &NumberItem) -> bool
    ensures { result ≡ is_plain item.now }
{
    match item {
        NumberItem::Range(_, NumberRange::Is(_)) => true,
        _ => false,
    }
}

fn item_test(alloc: Global, item: &NumberItem) -> Result<Option<Test>, NoMemory>
    ensures { IfOk result (λ found. found ≡ item_test item.now) }
{
    match item {
        NumberItem::Range(_, range) => range_test(alloc, range),
        NumberItem::Null(_) => Ok(Some(Test::Null)),
        NumberItem::Unlike(_, number) => match num_at(number.as_slice()) {
            None => Ok(None),
            Some(number) => Ok(Some(Test::Is(number))),
        },
    }
}

fn range_test(alloc: Global, range: &NumberRange) -> Result<Option<Test>, NoMemory>
    ensures { IfOk result (λ found. found ≡ range_test range.now) }
{
    match range {
        NumberRange::Is(number) => match num_at(number.as_slice()) {
            None => Ok(None),
            Some(number) => Ok(Some(Test::Is(number))),
        },
        NumberRange::From(number) => match num_at(number.as_slice()) {
            None => Ok(None),
            Some(low) => Ok(Some(Test::To(Some(low), None))),
        },
        NumberRange::UpTo(number) => match num_at(number.as_slice()) {
            None => Ok(None),
            Some(high) => Ok(Some(Test::To(None, Some(high)))),
        },
        NumberRange::Between(low, high) => match (num_at(low.as_slice()), num_at(high.as_slice())) {
            (Some(low), Some(high)) => Ok(Some(Test::To(Some(low), Some(high)))),
            _ => Ok(None),
        },
        NumberRange::Compare(first, more) => compare_test(alloc, first, more.as_slice()),
        NumberRange::Interval(open, low, high, close) => {
            match (edge_of(low), edge_of(high)) {
                (Some(low), Some(high)) => Ok(Some(Test::Range(
                    End {
                        edge: low,
                        closed: is_square(*open),
                    },
                    End {
                        edge: high,
                        closed: is_square(*close),
                    },
                ))),
                _ => Ok(None),
            }
        }
    }
}

fn is_square(bracket: Bracket) -> bool
    ensures { result ≡ is_square bracket }
{
    match bracket {
        Bracket::Square => true,
        Bracket::Round => false,
    }
}

fn compare_test(
    alloc: Global,
    first: &Compared,
    more: &[Compared],
) -> Result<Option<Test>, NoMemory>
    ensures { IfOk result (λ found. found ≡ option_map Compare (compares_of (first.now ∷ more.now))) }
{
    let Some(number) = num_at(first.number.as_slice()) else {
        return Ok(None);
    };
    let mut compares = Items::new(alloc);
    compares.push((comparison_of(first.comparison), number))?;
    for compared in more {
        let Some(number) = num_at(compared.number.as_slice()) else {
            return Ok(None);
        };
        compares.push((comparison_of(compared.comparison), number))?;
    }
    Ok(Some(Test::Compare(compares)))
}

fn edge_of(end: &WrittenEnd) -> Option<Edge>
    ensures { result ≡ edge_of end.now }
{
    match end {
        WrittenEnd::Number(number) => match num_at(number.as_slice()) {
            None => None,
            Some(number) => Some(Edge::At(number)),
        },
        WrittenEnd::Inf => Some(Edge::Highest),
        WrittenEnd::MinusInf => Some(Edge::Lowest),
    }
}

fn comparison_of(order: Order) -> Comparison
    ensures { result ≡ comparison_of order }
{
    match order {
        Order::Less => Comparison::Less,
        Order::AtMost => Comparison::AtMost,
        Order::Greater => Comparison::Greater,
        Order::AtLeast => Comparison::AtLeast,
    }
}

/// The number that a text reads as.
pub(crate) fn num_at(text: &[u8]) -> Option<Num>
    ensures { result ≡ num_at text.now }
{
    match Num::read(text) {
        Ok(number) => Some(number),
        Err(_) => None,
    }
}
