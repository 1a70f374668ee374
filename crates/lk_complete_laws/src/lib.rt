//! Laws: each text is read as something or refused somewhere, and each body of a query binds to something or is refused.
#![tactic(auto)]

mod laws;

pub use laws::{
    bodies_bind_or_are_refused, texts_are_expressions_or_refused, texts_are_filters_or_refused,
};
