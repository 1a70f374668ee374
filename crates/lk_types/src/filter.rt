use crate::expr::{Comparison, Piece};
use lk_val::{Items, Num};

/// A filter on a field. A value passes where it meets some include, or there is none, and no exclude. `relative`
/// says that some test is a relative date. (Looker, filter expressions)
#[derive(Drop)]
pub struct Filter {
    pub include: Items<Test>,
    pub exclude: Items<Test>,
    pub relative: bool,
}

/// Days from a first day up to the day after the last, both from 1970-01-01.
#[derive(Clone, Copy, PartialEq, Eq)]
pub struct Days {
    pub from: i32,
    pub up_to: i32,
}

/// Where an interval of numbers ends: below every number, at one, or above every number.
#[derive(Clone, Copy, PartialEq, Eq)]
pub enum Edge {
    Lowest,
    At(Num),
    Highest,
}

/// An end of an interval. `closed` is its square bracket: the number there belongs to the interval.
#[derive(Clone, Copy, PartialEq, Eq)]
pub struct End {
    pub edge: Edge,
    pub closed: bool,
}

/// A unit of relative dates. (Looker, filter expressions: date)
#[derive(Clone, Copy, PartialEq, Eq)]
pub enum Period {
    Day,
    Week,
    Month,
    Quarter,
    Year,
}

/// One item of a filter, by its form: two forms that pass the same values are two tests.
#[derive(Drop)]
pub enum Test {
    Null,
    Empty,
    Like(Items<Piece>),
    Is(Num),
    Compare(Items<(Comparison, Num)>),
    To(Option<Num>, Option<Num>),
    Range(End, End),
    In(Days),
    Before(Days),
    After(Days),
    FromTo(Days, Days),
    Today,
    Yesterday,
    This(Period),
    Last(Period),
    Recent(u32, Period),
    Ago(u32, Period),
    Truth(bool),
}
