// Filter texts as the filters that they spell.

ghost use Rattle.lk_val.specs.Memory.{UnlessMemory};
ghost use Rattle.lk_body.specs.Faults.{is_no_memory};
ghost use Rattle.lk_query.specs.Readings.{AreRead, IsRead};

use crate::texts::FilterText;
use lk_body::QueryFault;
use lk_filter::{FilterFault, read_filter};
use lk_types::{Filter, Pick};
use lk_val::Items;
use std::alloc::Global;

/// The filters that the texts spell, in their order, or Q6 for the first that spells none. (Looker, filter expressions)
pub(crate) fn read_texts(
    alloc: Global,
    texts: &[FilterText],
) -> Result<Items<(Pick, Filter)>, QueryFault>
    ensures { UnlessMemory is_no_memory result (AreRead texts.now) }
{
    let mut filters = Items::new(alloc);
    for text in texts {
        filters.push((text.on, read_text(alloc, text)?))?;
    }
    Ok(filters)
}

fn read_text(alloc: Global, text: &FilterText) -> Result<Filter, QueryFault>
    ensures { UnlessMemory is_no_memory result (IsRead text.now) }
{
    match read_filter(alloc, text.kind, text.text.as_bytes()) {
        Ok(filter) => Ok(filter),
        Err(FilterFault::Syntax(place)) => Err(QueryFault::Q6 {
            field: text.name.copy(alloc)?,
            place,
        }),
        Err(FilterFault::NoMemory) => Err(QueryFault::NoMemory),
    }
}
