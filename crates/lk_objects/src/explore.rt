use crate::code::Code;
use crate::filter_text::FilterText;
use crate::view::Entry;
use lk_params::Finding;
use lk_types::{JoinKind, Relation};
use lk_val::{Items, Text};

/// An explore, as it is declared. (Looker, LookML reference: explore)
#[derive(Drop)]
pub struct DeclaredExplore {
    pub name: Text,
    /// The view that it starts from; none where its `from` is no name.
    pub base: Option<Text>,
    /// The joins, in order.
    pub joins: Items<DeclaredJoin>,
    pub always_join: Items<Text>,
    pub filters: Items<ExploreFilter>,
    /// The aggregate tables, in order.
    pub rollups: Items<AggregateTable>,
    /// The first fault of its own parameters.
    pub first: Option<Finding>,
}

/// A join, as it is declared. (Looker, LookML reference: join)
#[derive(Drop)]
pub struct DeclaredJoin {
    pub name: Text,
    /// The view that it brings; none where its `from` is no name.
    pub view: Option<Text>,
    pub kind: JoinKind,
    pub relation: Relation,
    /// The code of `sql_on`.
    pub on: Code,
    pub foreign_key: Option<Text>,
    /// The joins that it requires.
    pub required: Items<Text>,
    /// The first fault of its own parameters.
    pub first: Option<Finding>,
}

/// One of an explore's filters, in the order of the text.
#[derive(Drop)]
pub enum ExploreFilter {
    /// `always_filter`.
    Always(AlwaysFilter),
    /// `access_filter`.
    Access(AccessFilter),
    /// The code of `sql_always_where`, and its first fault.
    Where(Code, Option<Finding>),
}

/// Filters, of which a query's filter on the same field takes the place. (Looker, LookML reference: always_filter)
#[derive(Drop)]
pub struct AlwaysFilter {
    pub filters: Items<FilterText>,
    /// The first fault of its own parameters.
    pub first: Option<Finding>,
}

/// A filter by an attribute of the caller. (Looker, LookML reference: access_filter)
#[derive(Drop)]
pub struct AccessFilter {
    pub field: Option<Text>,
    pub attribute: Option<Text>,
    /// The first fault of its own parameters.
    pub first: Option<Finding>,
}

/// An aggregate table, as it is declared. (Looker, LookML reference: aggregate_table)
#[derive(Drop)]
pub struct AggregateTable {
    pub name: Text,
    pub dimensions: Items<Text>,
    pub measures: Items<Text>,
    pub filters: Items<FilterText>,
    /// The datagroup that persists it.
    pub datagroup: Option<Text>,
    /// What its query names, in the order of the text.
    pub entries: Items<Entry>,
    /// The first fault of its own parameters.
    pub first: Option<Finding>,
}
