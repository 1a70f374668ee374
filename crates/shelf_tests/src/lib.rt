//! Shelves, desks and notes in one thread, over numbers.
#![tactic(auto)]

mod numbers;
#[cfg(test)]
mod tests;
