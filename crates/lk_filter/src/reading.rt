ghost use Rattle.std.specs.Prelude.{◌≡◌, Some, IfOk, IfSome};
ghost use Rattle.lk_filter.specs.FilterTexts.{IsFilterOf, IsFilterText, IsPlaceOf, IsFaultPlace, IfSyntax};
ghost use Rattle.lk_types.specs.declared.filter.Filter.{Filter};

use lk_filter_date::{judge_dates, read_dates};
use lk_filter_number::{judge_truths, place_of_numbers, read_numbers, read_truths};
use lk_filter_text::{judge_texts, read_texts};
use lk_types::Filter;
use lk_val::NoMemory;
use std::alloc::Global;

/// What a filter is on: texts, numbers, days and moments, or truth values.
#[derive(Clone, Copy, PartialEq, Eq)]
pub enum FilterKind {
    /// Texts, by patterns.
    Text,
    /// Numbers, by ranges.
    Number,
    /// Days and moments, by dates and relative dates.
    Date,
    /// Truth values.
    Truth,
}

/// Why a text is not read as a filter.
#[derive(Clone, Copy, PartialEq, Eq)]
pub enum FilterFault {
    /// The text is no filter of its kind. The place is the number of bytes before the fault. (F1)
    Syntax(u32),
    /// There is no memory for the filter.
    NoMemory,
}

impl From<NoMemory> for FilterFault {
    ghost use Rattle.std.specs.Prelude.{◌≡◌};
    ghost use Rattle.lk_filter.specs.declared.reading.FilterFault.TheVariants as fault;

    ghost from_gives = { λ _ e. e ≡ fault.NoMemory };

    fn from(_: NoMemory) -> FilterFault {
        FilterFault::NoMemory
    }
}

/// The most bytes of a filter's text.
pub const LONGEST_FILTER: u32 = 4096;

/// Reads a filter's text. Relative dates stay as they are written. A text that is no filter of the kind is refused with
/// the length of its longest prefix that begins one; a number that is out of range or too fine, with the place of its
/// first byte, if it comes before; a text of over 4,096 bytes, with 4,096. (Looker, filter expressions)
pub fn read_filter(alloc: Global, kind: FilterKind, text: &[u8]) -> Result<Filter, FilterFault>
    // The text spells the filter.
    ensures found { IfOk result (λ f. IsFilterText kind f text.now) }
    // It spells no other.
    ensures only { IfOk result (λ f. (g : Filter) → IsFilterText kind g text.now → g ≡ f) }
    // What is refused spells none, so each text that spells one is read, unless memory runs out.
    ensures refused { IfSyntax result (λ place. (f : Filter) → IsFilterText kind f text.now → ⊥) }
    ensures place { IfSyntax result (IsFaultPlace kind text.now) }
{
    if text.len() > LONGEST_FILTER as usize {
        return Err(FilterFault::Syntax(LONGEST_FILTER));
    }
    match filter_of(alloc, kind, text)? {
        Some(filter) => Ok(filter),
        None => Err(FilterFault::Syntax(place_of(alloc, kind, text)? as u32)),
    }
}

fn filter_of(alloc: Global, kind: FilterKind, text: &[u8]) -> Result<Option<Filter>, NoMemory>
    ensures spelled { IfOk result (λ found. IfSome found (λ f. IsFilterOf kind f text.now)) }
    ensures every { IfOk result (λ found. (f : Filter) → IsFilterOf kind f text.now → found ≡ Some f) }
{
    match kind {
        FilterKind::Text => read_texts(alloc, text),
        FilterKind::Number => read_numbers(alloc, text),
        FilterKind::Date => read_dates(alloc, text),
        FilterKind::Truth => read_truths(alloc, text),
    }
}

/// The place of a text that is no filter of the kind.
fn place_of(alloc: Global, kind: FilterKind, text: &[u8]) -> Result<usize, NoMemory>
    ensures { IfOk result (IsPlaceOf kind text.now) }
{
    match kind {
        FilterKind::Text => Ok(judge_texts(alloc, text)?.unwrap_or(text.len())),
        FilterKind::Number => place_of_numbers(alloc, text),
        FilterKind::Date => Ok(judge_dates(alloc, text)?.unwrap_or(text.len())),
        FilterKind::Truth => Ok(judge_truths(alloc, text)?.unwrap_or(text.len())),
    }
}
