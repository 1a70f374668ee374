//! Which aggregate tables fit a query, and which state answers it.
#![tactic(auto)]

mod fitting;
mod keeping;
mod ready;
mod regrouping;
mod role;
mod routing;
mod timeframe;
mod unmet;

pub use ready::Ready;
pub use unmet::Point;
