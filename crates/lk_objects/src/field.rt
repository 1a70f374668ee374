use crate::code::Code;
use crate::filter_text::FilterText;
use lk_params::Finding;
use lk_types::{Frame, Op};
use lk_val::{Items, Text};

/// The type of a dimension. (Looker, LookML reference: dimension types)
#[derive(Clone, Copy, PartialEq, Eq)]
pub enum DimensionType {
    /// `string`, and `zipcode`.
    Text,
    /// `number`.
    Number,
    /// `yesno`.
    Truth,
    /// `tier`: a number by the bounds of its tiers.
    Tier,
}

/// A field's sort, with its type where it has a known one. A dimension group has no type of its own.
#[derive(Clone, Copy, PartialEq, Eq)]
pub enum FieldSort {
    /// (Looker, LookML reference: dimension)
    Dimension(Option<DimensionType>),
    /// (Looker, LookML reference: dimension_group)
    Group,
    /// (Looker, LookML reference: measure)
    Measure(Option<Op>),
}

/// A dimension, a dimension group or a measure, as it is declared. A parameter that its sort does not have is empty.
#[derive(Drop)]
pub struct DeclaredField {
    pub name: Text,
    pub sort: FieldSort,
    pub sql: Code,
    /// The `sql_distinct_key` of a measure.
    pub key: Code,
    /// The `filters` of a measure, in order.
    pub filters: Items<FilterText>,
    /// The timeframes of a dimension group, in order and each once.
    pub frames: Items<Frame>,
    /// The bounds of a tier, ascending whole numbers.
    pub tiers: Items<i64>,
    /// Whether it is marked as the view's primary key.
    pub is_key: bool,
    /// The first fault of its own parameters.
    pub first: Option<Finding>,
}
