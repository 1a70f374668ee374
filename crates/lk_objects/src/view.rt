use crate::datagroup::DeclaredDatagroup;
use crate::explore::DeclaredExplore;
use crate::field::DeclaredField;
use crate::filter_text::FilterText;
use lk_params::Finding;
use lk_val::{Items, Text};

/// A view, as it is declared. (Looker, LookML reference: view)
#[derive(Drop)]
pub struct DeclaredView {
    pub name: Text,
    /// The fields by name; of equal names dimensions before groups before measures, and else as declared.
    pub fields: Items<DeclaredField>,
    pub rows: Rows,
    /// The first fault of its own parameters, those of its fields aside.
    pub first: Option<Finding>,
}

/// Where a view's rows come from.
#[derive(Drop)]
pub enum Rows {
    /// The stored table of this number; none where the schema has no such table.
    Stored(Option<u32>),
    /// The answer of a query.
    Derived(DerivedTable),
}

/// A native derived table. (Looker, LookML reference: derived_table, explore_source)
#[derive(Drop)]
pub struct DerivedTable {
    pub explore: Option<Text>,
    pub columns: Items<DeclaredColumn>,
    pub filters: Items<FilterText>,
    /// The datagroup that persists it, if one does.
    pub datagroup: Option<Text>,
    /// What it names, in the order of the text.
    pub entries: Items<Entry>,
}

/// A column of a derived table: its name and the field that it takes, as it is written.
#[derive(Drop)]
pub struct DeclaredColumn {
    pub name: Text,
    pub field: Text,
}

/// What a stored query names.
#[derive(Drop)]
pub enum Entry {
    /// A dimension of an aggregate table.
    Dimension(Text),
    /// A measure of an aggregate table.
    Measure(Text),
    /// The field of a derived table's column.
    Column(Text),
    /// The filter of this number, from 0.
    Filter(u32),
}

/// All views, explores and datagroups of a project, each list by name.
#[derive(Drop)]
pub struct Declared {
    pub views: Items<DeclaredView>,
    pub explores: Items<DeclaredExplore>,
    pub datagroups: Items<DeclaredDatagroup>,
}
