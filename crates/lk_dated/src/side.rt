ghost use Rattle.std.specs.Prelude.{◌≡◌};
ghost use Rattle.lk_types.specs.Kinds.{kinds_of_value};
ghost use Rattle.lk_dated.specs.Dated.{is_time};
ghost use Rattle.lk_dated.specs.Sides.{do_sides_compare, kind_beside, kind_where, kinds_beside, no_literal, null_side, readings_of_text, readings_of_value, side_of_value};

use lk_cell::{read_day, read_moment};
use lk_types::{Kind, KindSet};
use lk_val::Value;

/// What a text literal writes: whether it reads as the cell of a day, and whether as that of a moment.
#[derive(Clone, Copy, PartialEq, Eq)]
pub struct Readings {
    pub as_day: bool,
    pub as_moment: bool,
}

/// What is told of a side of a comparison without its expression: its kinds, and what it writes where it is a text literal.
#[derive(Clone, Copy, PartialEq, Eq)]
pub struct Side {
    pub kinds: KindSet,
    pub literal: Option<Readings>,
}

impl Side {
    /// A side of these kinds that is no text literal.
    pub fn no_literal(kinds: KindSet) -> Side
        ensures { result ≡ no_literal kinds }
    {
        Side {
            kinds,
            literal: None,
        }
    }

    /// Null, which has every kind.
    pub fn null() -> Side
        ensures { result ≡ null_side }
    {
        Side::no_literal(KindSet::every())
    }

    // A literal.
    pub(crate) fn of_value(value: &Value) -> Side
        ensures { result ≡ side_of_value value.now }
    {
        Side {
            kinds: kinds_of_value(value),
            literal: readings_of_value(value),
        }
    }

    // The kinds of the side beside one of these kinds.
    pub(crate) fn kinds_beside(self, kinds: KindSet) -> KindSet
        ensures { result ≡ kinds_beside kinds self }
    {
        match self.literal {
            None => self.kinds,
            Some(text) => match kind_beside(kinds, text) {
                None => self.kinds,
                Some(kind) => KindSet::only(kind),
            },
        }
    }

    /// Whether the two compare, each as it is beside the other.
    pub fn does_compare(self, other: Side) -> bool
        ensures { result ≡ do_sides_compare self other }
    {
        let kinds = self.kinds_beside(other.kinds);
        kinds.does_compare(other.kinds_beside(self.kinds))
    }
}

fn kinds_of_value(value: &Value) -> KindSet
    ensures { result ≡ kinds_of_value value.now }
{
    match value {
        Value::Null => KindSet::every(),
        Value::Text(_) => KindSet::only(Kind::Text),
        Value::Num(_) => KindSet::only(Kind::Number),
        Value::Truth(_) => KindSet::only(Kind::Truth),
        Value::Day(_) => KindSet::only(Kind::Day),
        Value::Moment(_) => KindSet::only(Kind::Moment),
    }
}

fn readings_of_value(value: &Value) -> Option<Readings>
    ensures { result ≡ readings_of_value value.now }
{
    match value {
        Value::Text(text) => Some(readings_of_text(text.as_bytes())),
        _ => None,
    }
}

// What a text literal of these bytes writes.
pub(crate) fn readings_of_text(text: &[u8]) -> Readings
    ensures { result ≡ readings_of_text text.now }
{
    Readings {
        as_day: read_day(text).is_some(),
        as_moment: read_moment(text).is_some(),
    }
}

// Whether the kinds are day, moment or both, and no other.
pub(crate) fn is_time(kinds: KindSet) -> bool
    ensures { result ≡ is_time kinds }
{
    kinds.has_time() && !(kinds.text || (kinds.number || kinds.truth))
}

// The kind of what a text literal writes beside these kinds.
fn kind_beside(kinds: KindSet, text: Readings) -> Option<Kind>
    ensures { result ≡ kind_beside kinds text }
{
    if !is_time(kinds) {
        return None;
    }
    if kinds.moment {
        kind_where(text.as_moment, Kind::Moment)
    } else {
        kind_where(text.as_day, Kind::Day)
    }
}

fn kind_where(condition: bool, kind: Kind) -> Option<Kind>
    ensures { result ≡ kind_where condition kind }
{
    if condition { Some(kind) } else { None }
}
