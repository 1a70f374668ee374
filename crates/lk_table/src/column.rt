ghost use Rattle.std.specs.Prelude.{◌≡◌};
ghost use Rattle.lk_table.specs.Widening.{nulls_of};

use crate::counts::Counts;
use crate::nullable::Nullable;
use lk_region::Mark;
use lk_types::Kind;
use std::alloc::Global;

/// The cells of one column, in the order of the rows; `None` is null. A number is its count of 1/10,000, a day a number of
/// days and a moment a number of seconds, both from 1970-01-01 00:00:00 UTC. The marks are of the region beside the column.
#[derive(Drop)]
pub enum Column {
    Text(Nullable<Mark>),
    Number(Counts),
    Truth(Nullable<bool>),
    Day(Nullable<i32>),
    Moment(Counts),
}

impl Column {
    /// A column of so many nulls, which take no memory.
    pub(crate) fn nulls(alloc: Global, kind: Kind, count: u32) -> Column
        ensures { result ≡ nulls_of kind count }
    {
        let count = count as usize;
        match kind {
            Kind::Text => Column::Text(Nullable::nulls(alloc, count)),
            Kind::Number => Column::Number(Counts::nulls(alloc, count)),
            Kind::Truth => Column::Truth(Nullable::nulls(alloc, count)),
            Kind::Day => Column::Day(Nullable::nulls(alloc, count)),
            Kind::Moment => Column::Moment(Counts::nulls(alloc, count)),
        }
    }

    /// Gives back the memory that no cell takes.
    pub(crate) fn shrink(&mut self)
        ensures { self.new ≡ self.old }
    {
        match self {
            Column::Text(cells) => cells.shrink(),
            Column::Number(counts) => counts.shrink(),
            Column::Truth(cells) => cells.shrink(),
            Column::Day(cells) => cells.shrink(),
            Column::Moment(counts) => counts.shrink(),
        }
    }
}
