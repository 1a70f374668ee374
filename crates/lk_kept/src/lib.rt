//! Laws of the loads that a server keeps: they append once, and its store holds its last state.
#![tactic(auto)]

mod laws;

pub use laws::{
    ids_append_at_most_once, kept_loads_get_their_reply, schemas_name_their_columns,
    stores_hold_the_last_state,
};
