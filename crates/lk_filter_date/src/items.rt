use crate::words::Plurality;
use lk_types::Period;
use lk_val::Bytes;

/// An item of a filter of dates, its dates and its count as they are written. A count is followed by its unit;
/// `Null` is true with `NOT` before it.
#[derive(Drop)]
pub(crate) enum DateItem {
    In(Bytes),
    Before(Bytes),
    After(Bytes),
    FromTo(Bytes, Bytes),
    Today,
    Yesterday,
    This(Period),
    Last(Period),
    Recent(Bytes, Period, Plurality),
    Ago(Bytes, Period, Plurality),
    Null(bool),
}
