//! Expressions: read from texts with the place of a fault, the kinds that they may have, and their values on joined
//! rows.
#![tactic(auto)]

pub use lk_eval::{
    Clash, are_literals_dated, each_pattern_has_a_text, eval, is_row_dated, kind_of, read_pattern,
    values_have_their_kinds,
};
pub use lk_expr_place::{ExprFault, read_expr, read_measure};
pub use lk_types::Leaves;
