//! Trees as lists of nodes, each behind its operands (postfix order). One pass over the list with a stack computes what
//! a recursion over the tree would, so a tree of any depth takes no stack of the machine.
#![tactic(auto)]

mod appending;
mod laws;
mod node;
mod stack;

pub use appending::append;
pub use laws::lists_of_nodes_are_computed;
pub use node::{TakesOperands, is_whole};
pub use stack::Stack;
