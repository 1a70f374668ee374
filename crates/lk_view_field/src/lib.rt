//! The dimensions, dimension groups and measures of a view, each read from its parameters.
#![tactic(auto)]

mod dimension;
mod field;
mod field_findings;
mod field_type;
mod frames;
mod group;
mod measure;
mod sort;
mod tier_findings;
mod tiers;

pub use dimension::find_in_dimension;
pub use field::read_field;
pub use field_findings::{needs_key, needs_sql};
pub use field_type::{dimension_type, measure_type};
pub use frames::{frame_named, frames_named, frames_of};
pub use group::find_in_group;
pub use measure::find_in_measure;
pub use sort::sort_of;
pub use tier_findings::find_in_tiers;
pub use tiers::{bounds_in, tiers_of};
