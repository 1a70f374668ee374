//! The tables of `schema.csv` and the users of `users.csv`, or the first fault of each.
#![tactic(auto)]

mod again;
mod rows;
mod schema;
mod tables;
mod users;

pub use schema::read_schema;
pub use users::{Users, attribute_of, has_user, read_users};
