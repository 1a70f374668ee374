//! Laws: a project says something, is loaded and opens as something, and words over it have a reply.
#![tactic(auto)]

mod laws;

pub use laws::{
    bytes_have_a_next_item, files_load_as_something, files_open_as_something,
    objects_say_something, parameters_say_something, requests_are_served, sessions_run_to_an_end,
    words_have_some_reply,
};
