//! Laws of a model at a moment and for each caller: how its queries are routed, what its aggregate tables keep, and how queries
//! that one of them fits are answered.
#![tactic(auto)]

mod laws;

pub use laws::{
    callers_are_routed_alike, fitting_queries_depend_on_no_moment, rollups_depend_on_no_moment,
    routes_depend_on_no_moment,
};
