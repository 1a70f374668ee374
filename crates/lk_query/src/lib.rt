//! Queries bound to an explore: names as numbers, the caller's filters and its own at a moment, or the first refusal.
#![tactic(auto)]

mod binding;
mod callers;
mod field_names;
mod filters;
mod laws;
mod measures;
mod names;
mod readings;
mod request;
mod rows;
mod texts;

pub use binding::{bind, bind_body};
pub use callers::{find_explore, find_user};
pub use laws::{
    bound_bodies_are_determined, bound_queries_are_determined, bound_queries_are_in_their_model,
    filters_are_of_their_kinds, resolved_models_have_few_joins,
};
pub use lk_body::{QueryFault, read_query};
pub use lk_schema::{Users, read_users};
pub use rows::with_always;
