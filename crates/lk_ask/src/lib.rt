//! A query over the tables of a resolved model: its answer, or its first refusal.
#![tactic(auto)]

mod asking;
mod fault;
mod laws;
mod told;

pub use asking::{answer_bound, told_by};
pub use fault::{AskFault, refused};
pub use laws::{
    rows_depend_on_no_moment, rows_read_decide_what_is_told, told_queries_are_those_asked,
    visible_rows_decide_what_is_told,
};
pub use told::Told;
