// What items mean: the filter of their tests.

ghost use Rattle.std.specs.Prelude.{◌≡◌, Some, None, IfOk, if◌then◌else◌};
ghost use Rattle.std.specs.List.{list_any};
ghost use Rattle.lk_filter_date.specs.Dates.{is_day, item_test, is_exclude, is_relative, own_test, included, excluded, date_filter};

use crate::items::DateItem;
use crate::written::{count_of, days_of};
use lk_types::{Filter, Period, Test};
use lk_val::{Items, NoMemory};
use std::alloc::Global;

/// The filter of the items, and none where one of their dates or counts doesn't read.
pub(crate) fn date_filter(alloc: Global, items: &[DateItem]) -> Result<Option<Filter>, NoMemory>
    ensures { IfOk result (λ found. found ≡ date_filter items.now) }
{
    let Some(include) = included(alloc, items)? else {
        return Ok(None);
    };
    Ok(Some(Filter {
        include,
        exclude: excluded(alloc, items)?,
        relative: has_relative(items),
    }))
}

fn included(alloc: Global, items: &[DateItem]) -> Result<Option<Items<Test>>, NoMemory>
    ensures { IfOk result (λ found. found ≡ included items.now) }
{
    let mut tests = Items::new(alloc);
    for item in items {
        let Some(own) = own_test(item) else {
            return Ok(None);
        };
        if let Some(test) = own {
            tests.push(test)?;
        }
    }
    Ok(Some(tests))
}

fn excluded(alloc: Global, items: &[DateItem]) -> Result<Items<Test>, NoMemory>
    ensures { IfOk result (λ tests. tests ≡ excluded items.now) }
{
    let mut tests = Items::new(alloc);
    for item in items {
        if is_exclude(item) {
            tests.push(Test::Null)?;
        }
    }
    Ok(tests)
}

/// The test of an item, and none where it is an exclude.
#[tactic(auto, unfolding(crate::specs::Dates::own_test))]
fn own_test(item: &DateItem) -> Option<Option<Test>>
    ensures { result ≡ own_test item.now }
{
    if is_exclude(item) {
        return Some(None);
    }
    Some(Some(item_test(item)?))
}

fn item_test(item: &DateItem) -> Option<Test>
    ensures { result ≡ item_test item.now }
{
    match item {
        DateItem::In(date) => Some(Test::In(days_of(date.as_slice())?)),
        DateItem::Before(date) => Some(Test::Before(days_of(date.as_slice())?)),
        DateItem::After(date) => Some(Test::After(days_of(date.as_slice())?)),
        DateItem::FromTo(from, upto) => {
            let low = days_of(from.as_slice())?;
            Some(Test::FromTo(low, days_of(upto.as_slice())?))
        }
        DateItem::Today => Some(Test::Today),
        DateItem::Yesterday => Some(Test::Yesterday),
        DateItem::This(period) => period_test(Test::This(*period), *period),
        DateItem::Last(period) => period_test(Test::Last(*period), *period),
        DateItem::Recent(count, period, _) => Some(Test::Recent(
            count_of(count.as_slice())?,
            *period,
        )),
        DateItem::Ago(count, period, _) => Some(Test::Ago(count_of(count.as_slice())?, *period)),
        DateItem::Null(_) => Some(Test::Null),
    }
}

/// The test, unless its unit is a day.
fn period_test(test: Test, period: Period) -> Option<Test>
    ensures { result ≡ (if is_day period then None else Some test) }
{
    if is_day(period) { None } else { Some(test) }
}

fn is_day(period: Period) -> bool
    ensures { result ≡ is_day period }
{
    matches!(period, Period::Day)
}

fn is_exclude(item: &DateItem) -> bool
    ensures { result ≡ is_exclude item.now }
{
    match item {
        DateItem::Null(negated) => *negated,
        _ => false,
    }
}

fn has_relative(items: &[DateItem]) -> bool
    ensures { result ≡ list_any is_relative items.now }
{
    items.iter().any(|item| is_relative(item))
}

fn is_relative(item: &DateItem) -> bool
    ensures { result ≡ is_relative item.now }
{
    match item {
        DateItem::In(_)
        | DateItem::Before(_)
        | DateItem::After(_)
        | DateItem::FromTo(_, _)
        | DateItem::Null(_) => false,
        _ => true,
    }
}
