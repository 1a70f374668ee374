//! The scope of an explore or of one view: its fields by name, what the names and filters of an explore mean in it, and
//! how faults are told one piece after another.
#![tactic(auto)]

mod component;
mod end;
mod explore_names;
mod keys;
mod order;
mod readings;
mod scope_fields;
mod scopes;

pub use component::components;
pub use end::{copy_line, end_test, known_findings};
pub use order::{parts_by_name, places_by_name};
pub use readings::{is_relative, place_in, reading_of};
pub use scope_fields::ScopeFields;
pub use scopes::{alone, explore_named, full_name, full_name_of, part_name, scope_of, view_number};
