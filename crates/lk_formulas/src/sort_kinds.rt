ghost use Rattle.std.specs.Prelude.{◌≡◌};
ghost use Rattle.std.specs.Option.{option_or};
ghost use Rattle.lk_types.specs.Kinds.{has_kind};
ghost use Rattle.lk_formulas.specs.FieldKinds.{adds_numbers, dimension_kind, framed_kind, is_no_number, is_number, kind_if, kind_of_frame, kind_of_measure, kind_of_type, misses_kind, or_text, single_time, time_kind, value_kind};

use lk_objects::{DimensionType, FieldSort};
use lk_types::{Frame, Kind, KindSet, Op};

/// The kind of a dimension's type; an unknown type has none. (Looker, LookML reference: dimension types)
pub fn kind_of_type(dimension_type: Option<DimensionType>) -> Option<Kind>
    ensures { result ≡ kind_of_type dimension_type }
{
    match dimension_type {
        None => None,
        Some(DimensionType::Text) => Some(Kind::Text),
        Some(DimensionType::Number | DimensionType::Tier) => Some(Kind::Number),
        Some(DimensionType::Truth) => Some(Kind::Truth),
    }
}

/// The kind of a timeframe; a raw one has that of its group. (Looker, LookML reference: timeframes)
pub fn kind_of_frame(frame: Frame) -> Option<Kind>
    ensures { result ≡ kind_of_frame frame }
{
    match frame {
        Frame::Raw => None,
        Frame::Time => Some(Kind::Moment),
        Frame::HourOfDay | Frame::DayOfMonth | Frame::MonthNum => Some(Kind::Number),
        Frame::DayOfWeek => Some(Kind::Text),
        Frame::Date | Frame::Week | Frame::Month | Frame::Quarter | Frame::Year => Some(Kind::Day),
    }
}

fn first_kind(first: Option<Kind>, second: Option<Kind>) -> Option<Kind>
    ensures { result ≡ option_or first second }
{
    match first {
        Some(kind) => Some(kind),
        None => second,
    }
}

fn kind_if(is_certain: bool, kind: Kind) -> Option<Kind>
    ensures { result ≡ kind_if is_certain kind }
{
    if is_certain { Some(kind) } else { None }
}

// The one of day and moment.
fn single_time(kinds: KindSet) -> Option<Kind>
    ensures { result ≡ single_time kinds }
{
    let times = KindSet {
        day: kinds.day,
        moment: kinds.moment,
        ..KindSet::none()
    };
    times.single()
}

// The kind of a time group whose expression may have these kinds: a moment where it gives none, if all in it is known.
pub(crate) fn time_kind(kinds: KindSet, is_certain: bool) -> Option<Kind>
    ensures { result ≡ time_kind kinds is_certain }
{
    if kinds.is_empty() {
        None
    } else {
        first_kind(single_time(kinds), kind_if(is_certain, Kind::Moment))
    }
}

// The kind of a `min` or `max` over an expression that may have these kinds: text where it gives none, if all in it is known.
pub(crate) fn value_kind(kinds: KindSet, is_certain: bool) -> Option<Kind>
    ensures { result ≡ value_kind kinds is_certain }
{
    if kinds.is_empty() {
        None
    } else {
        first_kind(kinds.single(), kind_if(is_certain, Kind::Text))
    }
}

// The kind of a dimension by its sort, given that of a time group.
pub(crate) fn dimension_kind(
    sort: FieldSort,
    frame: Option<Frame>,
    group: Option<Kind>,
) -> Option<Kind>
    ensures { result ≡ dimension_kind sort frame group }
{
    match sort {
        FieldSort::Dimension(dimension_type) => kind_of_type(dimension_type),
        FieldSort::Group => framed_kind(frame, group),
        FieldSort::Measure(_) => None,
    }
}

fn framed_kind(frame: Option<Frame>, group: Option<Kind>) -> Option<Kind>
    ensures { result ≡ framed_kind frame group }
{
    match frame {
        None => group,
        Some(frame) => first_kind(kind_of_frame(frame), group),
    }
}

// The kind of a measure by its sort, given that of the values of a `min` or `max`.
pub(crate) fn kind_of_measure(sort: FieldSort, extreme: Option<Kind>) -> Option<Kind>
    ensures { result ≡ kind_of_measure sort extreme }
{
    match sort {
        FieldSort::Measure(Some(Op::Min | Op::Max)) => extreme,
        _ => Some(Kind::Number),
    }
}

// Whether the kind is known, and not number.
pub(crate) fn is_no_number(kind: Option<Kind>) -> bool
    ensures { result ≡ is_no_number kind }
{
    match kind {
        None | Some(Kind::Number) => false,
        Some(Kind::Text | Kind::Truth | Kind::Day | Kind::Moment) => true,
    }
}

// Whether the sort is that of a measure of type number.
pub(crate) fn is_number(sort: FieldSort) -> bool
    ensures { result ≡ is_number sort }
{
    match sort {
        FieldSort::Measure(Some(Op::Number)) => true,
        _ => false,
    }
}

// Whether an expression that may have these kinds can't have the one that a field of this sort needs.
pub(crate) fn misses_kind(sort: FieldSort, kinds: KindSet) -> bool
    ensures { result ≡ misses_kind sort kinds }
{
    match sort {
        FieldSort::Dimension(dimension_type) => {
            !has_kind(or_text(kind_of_type(dimension_type)), kinds)
        }
        FieldSort::Group => !kinds.has_time(),
        FieldSort::Measure(op) => {
            if adds_numbers(op) {
                !has_kind(Kind::Number, kinds)
            } else {
                kinds.is_empty()
            }
        }
    }
}

// A dimension of unknown type is taken as a text.
fn or_text(kind: Option<Kind>) -> Kind
    ensures { result ≡ or_text kind }
{
    match kind {
        None => Kind::Text,
        Some(kind) => kind,
    }
}

fn adds_numbers(op: Option<Op>) -> bool
    ensures { result ≡ adds_numbers op }
{
    match op {
        Some(Op::Sum | Op::Average | Op::SumDistinct | Op::AverageDistinct) => true,
        _ => false,
    }
}

fn has_kind(kind: Kind, kinds: KindSet) -> bool
    ensures { result ≡ has_kind kind kinds }
{
    match kind {
        Kind::Text => kinds.text,
        Kind::Number => kinds.number,
        Kind::Truth => kinds.truth,
        Kind::Day => kinds.day,
        Kind::Moment => kinds.moment,
    }
}
