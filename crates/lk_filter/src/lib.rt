//! Filter expressions: filters read from texts, which values pass them, and their relative dates at a moment.
#![tactic(auto)]

mod comparing;
mod laws;
mod meeting;
mod model;
mod passing;
mod placing;
mod reading;
mod sameness;
mod unit;

pub use laws::{
    faults_have_one_place, filter_texts_spell_one_filter, placing_leaves_no_relative_date,
    relative_dates_mean_units, same_filters_pass_the_same, sameness_is_an_equivalence,
    units_divide_the_days,
};
pub use model::place_model;
pub use passing::{passes, passes_frac};
pub use placing::place;
pub use reading::{FilterFault, FilterKind, LONGEST_FILTER, read_filter};
pub use sameness::same;
