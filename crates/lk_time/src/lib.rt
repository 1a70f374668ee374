//! Timeframes: a day or moment brought to one of LookML's eleven timeframes, and a timeframe to a coarser one.
#![tactic(auto)]

mod civil;
mod coarsening;
mod framing;
mod laws;
mod range;
mod weekday;

pub use coarsening::{NotHad, coarsen};
pub use framing::frame;
pub use laws::{calendar_is_civil, framing_again_is_framing};
pub use range::is_in_years;
pub use weekday::day_name;
