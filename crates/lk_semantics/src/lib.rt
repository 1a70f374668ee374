//! What a query over a resolved model means: joined rows, measures over distinct keys, answers, derived tables and
//! aggregate tables, with laws and computed examples.
#![tactic(auto)]

mod examples;
mod laws;

pub use examples::{
    conflicts_are_of_visible_rows, corners_are_defined, derived_tables_are_answers,
    derived_tables_are_reached, rollups_fit_and_regroup, shop_filters_and_sorts_apply,
    shop_queries_are_answered, tables_are_joined, the_shop_is_resolved, wrong_definitions_differ,
};
pub use laws::{
    answers_are_isolated, derived_rows_are_whole, determined_views_are_least,
    each_row_has_one_group, joined_rows_are_dated, needed_joins_are_least, pairs_are_a_set,
};
