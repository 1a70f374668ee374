//! How a query's reply is written: its answer in CSV or JSON, or its refusal in JSON.
#![tactic(auto)]

mod answer;
mod json_answer;
mod refusal;
mod reply;

pub use answer::print_answer;
pub use json_answer::print_answer_json;
pub use refusal::print_refusal;
pub use reply::{reply_answer, reply_refusal};
