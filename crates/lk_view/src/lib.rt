//! Views, read from their parameters: their fields in order, the table or derived table that their rows come from, and the
//! first fault that these show.
#![tactic(auto)]

mod derived_findings;
mod derived_table;
mod field_order;
mod table;
mod view;
mod view_findings;

pub use derived_findings::find_in_derived;
pub use derived_table::read_derived;
pub use field_order::fields_in;
pub use table::table_named;
pub use view::read_view;
pub use view_findings::{first_of_view, table_text};
