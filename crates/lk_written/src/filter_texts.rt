ghost use Rattle.std.specs.Prelude.{IfOk};
ghost use Rattle.lk_written.specs.Values.{filters_at};
ghost use Rattle.lk_written.specs.ReadFilters.{AreFilters, IsFilterText, IsReadAs};

use crate::filters::filters_at;
use lk_filter::{FilterFault, FilterKind, read_filter};
use lk_objects::{FilterText, ReadFilter};
use lk_read::Item;
use lk_val::{Items, NoMemory, Text};
use std::alloc::Global;

/// The filters of a block, in order, each with its text as each of the four grammars reads it: which one counts is known
/// where the field that it names is. (Looker, LookML reference: filters; Looker, filter expressions)
pub fn read_filters(alloc: Global, items: &[Item]) -> Result<Items<FilterText>, NoMemory>
    ensures { IfOk result (AreFilters (filters_at items.now)) }
{
    let pairs = filters_at(alloc, items)?;
    read_pairs(alloc, pairs.as_slice())
}

fn read_pairs(alloc: Global, pairs: &[(Text, Text)]) -> Result<Items<FilterText>, NoMemory>
    ensures { IfOk result (AreFilters pairs.now) }
{
    let mut filters = Items::new(alloc);
    for pair in pairs {
        filters.push(read_pair(alloc, pair)?)?;
    }
    Ok(filters)
}

fn read_pair(alloc: Global, pair: &(Text, Text)) -> Result<FilterText, NoMemory>
    ensures { IfOk result (IsFilterText pair.now) }
{
    let (name, text) = pair;
    Ok(FilterText {
        name: name.copy(alloc)?,
        text: text.copy(alloc)?,
        as_text: read_as(alloc, FilterKind::Text, text)?,
        as_number: read_as(alloc, FilterKind::Number, text)?,
        as_date: read_as(alloc, FilterKind::Date, text)?,
        as_truth: read_as(alloc, FilterKind::Truth, text)?,
    })
}

fn read_as(alloc: Global, kind: FilterKind, text: &Text) -> Result<ReadFilter, NoMemory>
    ensures { IfOk result (IsReadAs kind text.now) }
{
    match read_filter(alloc, kind, text.as_bytes()) {
        Ok(filter) => Ok(ReadFilter::Read(filter)),
        Err(FilterFault::Syntax(place)) => Ok(ReadFilter::Syntax(place)),
        Err(FilterFault::NoMemory) => Err(NoMemory),
    }
}
