//! Groups and their measures over rows that come one by one: each measure is taken once for each distinct key, and
//! the least key with two values is named.
#![tactic(auto)]

mod acc;
mod cells;
mod columns;
mod digest;
mod fault;
mod given;
mod groups;
mod halves;
mod kept;
mod laws;
mod number_pair;
mod parts;
mod sorted;
mod tally;
mod text_pair;

pub use acc::{Acc, AccShape, partials};
pub use fault::AggFault;
pub use given::KeyRef;
pub use laws::{given_rows_are_regular, merged_parts_are_of_all_rows};
pub use lk_types::{GroupRow, KeyValue, Op, Partial};
pub use parts::{cell_of_partial, merge_partials};
