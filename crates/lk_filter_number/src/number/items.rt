use lk_val::{Bytes, Items};

/// An end of an interval, as it is written.
#[derive(Drop)]
pub(crate) enum WrittenEnd {
    Number(Bytes),
    Inf,
    MinusInf,
}

/// A comparison with a number, as it is written.
#[derive(Drop)]
pub(crate) struct Compared {
    pub(crate) comparison: Order,
    pub(crate) number: Bytes,
}

/// A comparison that filters of numbers have.
#[derive(Clone, Copy, PartialEq, Eq)]
pub(crate) enum Order {
    Less,
    AtMost,
    Greater,
    AtLeast,
}

/// A bracket of an interval: the number at a square one belongs to it.
#[derive(Clone, Copy, PartialEq, Eq)]
pub(crate) enum Bracket {
    Square,
    Round,
}

/// A range of numbers, as it is written.
#[derive(Drop)]
pub(crate) enum NumberRange {
    Is(Bytes),
    From(Bytes),
    UpTo(Bytes),
    Between(Bytes, Bytes),
    Compare(Compared, Items<Compared>),
    Interval(Bracket, WrittenEnd, WrittenEnd, Bracket),
}

/// How a number that is left out is marked: by `<>` or by `!=`.
#[derive(Clone, Copy, PartialEq, Eq)]
pub(crate) enum UnlikeSign {
    Angles,
    Exclamation,
}

/// An item of a filter of numbers: a range or `NULL`, with `NOT` before it where that is true; or a number that is
/// left out.
#[derive(Drop)]
pub(crate) enum NumberItem {
    Range(bool, NumberRange),
    Null(bool),
    Unlike(UnlikeSign, Bytes),
}

/// What stands between two items: a comma or `OR`.
#[derive(Clone, Copy, PartialEq, Eq)]
pub(crate) enum Separator {
    Comma,
    Or,
}

/// A further item, with what stands before it.
#[derive(Drop)]
pub(crate) struct FurtherItem {
    pub(crate) separator: Separator,
    pub(crate) item: NumberItem,
}

/// The items of a filter of numbers.
#[derive(Drop)]
pub(crate) struct NumberItems {
    pub(crate) first: NumberItem,
    pub(crate) more: Items<FurtherItem>,
}
