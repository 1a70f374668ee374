//! The trees of expressions, how they grow by one step, the functions that they call, and which are of measures.
#![tactic(auto)]

mod calls;
mod expr;
mod grown;
mod measure;
mod raw;

pub use calls::unknown_call;
pub use expr::{RawArgs, RawBranches, RawExpr};
pub use grown::{
    Parsed, ParsedArgs, ParsedBranch, ParsedBranches, bare_name, called, compared, denied, ended,
    ended_else, first_arg, first_branch, grouped, joined, leaf, liked, listed, next_arg,
    next_branch, null_test, upto, valued, with_sign,
};
pub use measure::is_measure;
pub use raw::{Joint, RawNode};
