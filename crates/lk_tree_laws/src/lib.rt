//! Laws of keys over joins: rows with one key of a view agree in the views that it determines; and corners of what may be
//! stored, computed.
#![tactic(auto)]

mod examples;
mod laws;

pub use examples::{stored_corners_are_defined, unresolved_corners_are_defined};
pub use laws::rows_with_one_key_agree;
