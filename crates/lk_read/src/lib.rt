//! LookML text: each file is read to its one tree, or refused at the first place that cannot stand.
#![tactic(auto)]

mod builder;
mod file;
mod letters;
mod phase;
mod pieces;
mod print;
mod read_fault;
mod reader;
mod string;
mod tree;
mod trim;
mod value;

pub use file::read_file;
pub use print::print_tree;
pub use read_fault::{ReadFault, a_text_has_one_fault, a_text_has_one_outcome};
pub use tree::{Entries, Entry, Item, Node, Tree};
