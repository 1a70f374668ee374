//! Texts kept once each: a region numbers its texts, so that equal numbers are equal texts; and columns of them.
#![tactic(auto)]

mod column;
mod hash;
mod mark;
mod region;
mod sealed;
mod texts;

pub use column::Column;
pub use mark::Mark;
pub use region::{Region, equal_marks_are_equal_texts};
pub use sealed::SealedRegion;
