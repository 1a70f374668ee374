//! The parameters of LookML blocks: which may stand in which block, what a value says, which of several blocks counts, and
//! which fault of a block comes first.
#![tactic(auto)]

mod copies;
mod finding;
mod known;
mod number;
mod overlay;
mod owner;
mod parameters;
mod values;

pub use copies::{copy_item, copy_items, copy_title, copy_tree, copy_value};
pub use finding::{Finding, Findings, named_line};
pub use known::{add_if, find_in_item, find_unknown, holds_liquid};
pub use number::{Number, Order};
pub use overlay::{firsts, joined, overlaid};
pub use owner::{Owner, has_effect, is_display};
pub use parameters::{last_named, named, parameters_of};
pub use values::{code, pairs, scalar, titled, words};
