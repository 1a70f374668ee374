//! Printed SQL: the trees of a SELECT, their text, and which of them have one.
#![tactic(auto)]

mod copying;
mod examples;
mod expr;
mod node;
mod node_text;
mod printable;
mod printing;
mod quoting;
mod select;
mod standing;

pub use examples::{selects_are_told_apart, selects_have_their_texts};
pub use expr::SqlExpr;
pub use node::{Fold, KeyFold, SqlNode};
pub use node_text::{arithmetic_text, comparison_text, fold_front, frame_front, key_front};
pub use printable::is_printable;
pub use printing::print_sql;
pub use select::{Select, SqlItem, SqlJoin, SqlSort, SqlTable};
