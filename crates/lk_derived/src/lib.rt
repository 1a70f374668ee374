//! Laws of the rows of derived tables: their days and moments are of the years that every evaluation
//! takes, and their cells of the kinds of what their columns take.
#![tactic(auto)]

mod laws;

pub use laws::{
    derived_rows_are_dated, derived_rows_have_their_kinds, resolved_explores_are_dated,
    rows_read_are_dated, rows_read_decide, whole_tables_have_rows,
};
