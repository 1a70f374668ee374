// Which rows of an aggregate table count for a query.

ghost use Rattle.std.specs.Prelude.{◌≡◌, IfOk, true};
ghost use Rattle.std.specs.List.{list_all};
ghost use Rattle.lk_types.specs.Dates.{is_dated};
ghost use Rattle.lk_regroup.specs.FieldSources.{passes_at, passes_each};

use crate::source::FieldSource;
use crate::value::value_from;
use lk_filter::passes;
use lk_types::Filter;
use lk_val::{NoMemory, Value};
use std::alloc::Global;

/// Whether the group of a row passes each filter.
pub(crate) fn passes_each(
    alloc: Global,
    filters: &[(Option<FieldSource>, Filter)],
    group: &[Value],
) -> Result<bool, NoMemory>
    requires dated { list_all is_dated group.now ≡ true }
    ensures { IfOk result (λ yes. yes ≡ passes_each filters.now group.now) }
{
    for filter in filters {
        if !passes_at(alloc, filter, group)? {
            return Ok(false);
        }
    }
    Ok(true)
}

fn passes_at(
    alloc: Global,
    filter: &(Option<FieldSource>, Filter),
    group: &[Value],
) -> Result<bool, NoMemory>
    requires dated { list_all is_dated group.now ≡ true }
    ensures { IfOk result (λ yes. yes ≡ passes_at group.now filter.now) }
{
    let had = value_from(alloc, group, filter.0)?;
    Ok(passes(&filter.1, had.value()))
}
