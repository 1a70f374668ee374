//! Readers and writers that fail, a folder of the system, and clocks.
#![tactic(auto)]

#[cfg(test)]
mod clocks;
#[cfg(test)]
mod folder;
#[cfg(test)]
mod links;
#[cfg(test)]
mod streams;
