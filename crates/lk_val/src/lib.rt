//! Values of the tables: texts, numbers and their order, and the few types that every crate above names.
#![tactic(auto)]

mod bytes;
mod cell;
mod copied;
mod distinct;
mod divisor;
mod fault;
mod frac;
mod items;
mod laws;
mod memory;
mod num;
mod ratio;
mod rounding;
mod sets;
mod text;
mod tuple;
mod value;
mod value_ref;

pub use bytes::Bytes;
pub use cell::{Cell, cmp_cell};
pub use copied::Copied;
pub use distinct::do_differ;
pub use fault::{FaultLine, ModelFault};
pub use frac::Frac;
pub use items::Items;
pub use laws::{
    cells_are_ordered, fractions_are_ordered, fractions_form_a_field,
    fractions_of_counts_compare_as_counts, gcd_is_greatest, lowest_terms_are_unique,
    numbers_read_as_written, printed_numbers_read_back, rounding_is_nearest,
};
pub use memory::NoMemory;
pub use num::{Num, NumFault, print_count};
pub use sets::{set_ascends, set_has_its_list, set_is_unique};
pub use text::{Text, are_different, as_text, is_among, is_text};
pub use tuple::Tuple;
pub use value::{Value, cmp_value, order_is_exact};
pub use value_ref::ValueRef;
