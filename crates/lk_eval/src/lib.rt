//! Resolved expressions: the kinds that they may have, and their values on joined rows.
#![tactic(auto)]

mod arithmetic;
mod cells;
mod choices;
mod comparison;
mod conditions;
mod dated;
mod evaluation;
mod framed;
mod kinds;
mod laws;
mod like;
mod operand;
mod texts;
mod truth;

pub use cells::HasCells;
pub use dated::{are_literals_dated, is_row_dated};
pub use evaluation::{eval, eval_over};
pub use kinds::{Clash, kind_of, kinds_framed, kinds_made};
pub use laws::values_have_their_kinds;
pub use like::{each_pattern_has_a_text, read_pattern};
pub use truth::is_true;
