ghost use Rattle.std.specs.Prelude.{◌≡◌, option_map};
ghost use Rattle.lk_scope.specs.Readings.{is_relative, place_in, reading_of, reading_of_frame, reading_of_sort, reading_of_type};

use lk_fields::{Found, Scope, field_at};
use lk_objects::{DeclaredView, DimensionType, FieldSort, FilterText, ReadFilter};
use lk_types::Frame;

/// What a filter on a field says: its text as the kind of that field has it. An hour, a day of the month and a month's
/// number are numbers, a day of the week is a text, and any other timeframe a date; a tier is its lower bound. (Looker,
/// filter expressions)
pub fn reading_of<'a>(
    views: &[DeclaredView],
    scope: &Scope,
    filter: &'a FilterText,
    found: Found,
) -> Option<&'a ReadFilter>
    ensures { option_map (λ r. r.now) result ≡ reading_of views.now scope.now filter.now found }
{
    let field = field_at(views, scope, found.place)?;
    Some(reading_of_sort(field.sort, found.frame, filter))
}

fn reading_of_sort(sort: FieldSort, frame: Option<Frame>, filter: &FilterText) -> &ReadFilter
    ensures { result.now ≡ reading_of_sort sort frame filter.now }
{
    match sort {
        FieldSort::Dimension(kind) => reading_of_type(kind, filter),
        FieldSort::Group => reading_of_frame(frame, filter),
        FieldSort::Measure(_) => &filter.as_number,
    }
}

fn reading_of_type(kind: Option<DimensionType>, filter: &FilterText) -> &ReadFilter
    ensures { result.now ≡ reading_of_type kind filter.now }
{
    match kind {
        Some(DimensionType::Number) | Some(DimensionType::Tier) => &filter.as_number,
        Some(DimensionType::Truth) => &filter.as_truth,
        Some(DimensionType::Text) | None => &filter.as_text,
    }
}

fn reading_of_frame(frame: Option<Frame>, filter: &FilterText) -> &ReadFilter
    ensures { result.now ≡ reading_of_frame frame filter.now }
{
    match frame {
        Some(Frame::HourOfDay) | Some(Frame::DayOfMonth) | Some(Frame::MonthNum) => {
            &filter.as_number
        }
        Some(Frame::DayOfWeek) => &filter.as_text,
        _ => &filter.as_date,
    }
}

/// The place of the fault in a filter's text, if it is no filter.
pub fn place_in(reading: Option<&ReadFilter>) -> Option<u32>
    ensures { result ≡ place_in (option_map (λ r. r.now) reading.entry) }
{
    match reading {
        Some(ReadFilter::Syntax(place)) => Some(*place),
        _ => None,
    }
}

/// Whether a filter has a relative date.
pub fn is_relative(reading: Option<&ReadFilter>) -> bool
    ensures { result ≡ is_relative (option_map (λ r. r.now) reading.entry) }
{
    match reading {
        Some(ReadFilter::Read(filter)) => filter.relative,
        _ => false,
    }
}
