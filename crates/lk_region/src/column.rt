use crate::mark::Mark;
use lk_val::Items;

/// The cells of one column, in the order of the rows; `None` is null. A number is its count of 1/10,000, a day
/// a number of days and a moment a number of seconds, both from 1970-01-01 00:00:00 UTC. The marks are of the
/// region that stands beside the column.
#[derive(Drop)]
pub enum Column {
    Text(Items<Option<Mark>>),
    Number(Items<Option<i64>>),
    Truth(Items<Option<bool>>),
    Day(Items<Option<i32>>),
    Moment(Items<Option<i64>>),
}
