use lk_types::Frame;
use lk_val::{Items, Text};

/// The views in which names are looked up: those of an explore, the base view first and then the joined ones in declared
/// order, or one view alone.
#[derive(Drop)]
pub struct Scope {
    pub parts: Items<ScopePart>,
}

/// A view under its name in the explore, by its number among all views; none where there is no such view.
#[derive(Drop)]
pub struct ScopePart {
    pub name: Text,
    pub view: Option<u32>,
}

/// A declared field of a part, by the numbers of both.
#[derive(Clone, Copy, PartialEq, Eq)]
pub struct Place {
    pub part: u32,
    pub field: u32,
}

/// What a name means: a declared field, and the timeframe where that is a dimension group.
#[derive(Clone, Copy, PartialEq, Eq)]
pub struct Found {
    pub place: Place,
    pub frame: Option<Frame>,
}

/// The sort of field that a place in a text needs. A dimension group makes dimensions.
#[derive(Clone, Copy, PartialEq, Eq)]
pub enum Sort {
    Dimension,
    Measure,
}

/// Whose text a name stands in.
#[derive(Clone, Copy, PartialEq, Eq)]
pub enum Writer {
    /// That of a field of this part: a name without a view is one of the field's own view.
    Field(u32),
    /// The explore's own: a name without a view is one of the base view.
    Explore,
}
