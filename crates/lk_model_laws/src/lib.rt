//! Laws of models: a project without a fault resolves to one that is resolved, conjunct by conjunct.
#![tactic(auto)]

mod laws;

pub use laws::{
    expressions_are_whole, expressions_have_their_kinds, fields_have_their_kinds,
    filters_are_of_their_fields, joins_are_counted, joins_have_their_conditions, keys_are_exact,
    measures_are_grounded, measures_may_be_stored, models_are_resolved, numbers_are_of_something,
    spelled_objects_suffice, stored_queries_are_fixed, tiers_ascend, timeframes_are_of_one_group,
};
