//! Laws of what is loaded: the model of a folder's files is resolved.
#![tactic(auto)]

mod laws;

pub use laws::{
    loaded_models_are_resolved, objects_are_spelled, read_models_are_resolved, texts_are_spelled,
};
