//! The fields of an explore or of one view: which field a name means, and expressions with others in place of columns.
#![tactic(auto)]

mod existing;
mod frame;
mod made;
mod marks;
mod names;
mod nodes;
mod places;
mod reaching;
mod references;
mod rows;
mod scope;
mod substitution;
mod view_names;

pub use existing::FieldSet;
pub use frame::frame_name;
pub use made::{frame_made, has_sort};
pub use names::{found_by, found_in, part_meant, split_name, view_at};
pub use nodes::{nodes_in, nodes_with};
pub use places::all_places;
pub use reaching::reached;
pub use references::{field_at, fields_at, named_by, referred};
pub use rows::{Row, Rule, number_of, rows_of};
pub use scope::{Found, Place, Scope, ScopePart, Sort, Writer};
pub use substitution::substituted;
pub use view_names::in_view;
