//! What the texts of LookML parameters say: their values, codes and filters, and the faults of these.
#![tactic(auto)]

mod blocks;
mod calls;
mod code_findings;
mod codes;
mod entries;
mod examples;
mod filter_findings;
mod filter_texts;
mod filters;
mod laws;
mod measure;
mod measure_nodes;
mod names;
mod nodes;
mod schema_names;
mod skeleton;
mod value_findings;
mod values;

pub use blocks::{block_items, block_name, is_block_of, is_named_block};
pub use code_findings::find_in_code;
pub use codes::read_code;
pub use entries::add_filter_entries;
pub use examples::{measures_are_numbered, names_are_numbered};
pub use filter_findings::find_in_filters;
pub use filter_texts::read_filters;
pub use filters::filters_at;
pub use laws::texts_say_one_thing;
pub use schema_names::{column_number, table_number};
pub use value_findings::{add_wrong, add_wrong_within};
pub use values::{code_at, copied_text, is_missing, is_no_truth, is_text, is_yes, text_at};
