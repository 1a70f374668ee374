//! The derived tables that a query reads, the order in which derived tables are made, and tables that have those that are wanted.
#![tactic(auto)]

mod filling;
mod laws;
mod needed;
mod numbers;
mod order;
mod reached;
mod reading;

pub use filling::{derive_order, fill};
pub use laws::{first_tables_reach_first, rounds_give_an_order, wanted_rows_are_read};
pub use numbers::{add_numbers, has_number};
pub use order::order_over;
pub use reached::{first_reached, groups_reached};
pub use reading::tables_read;
