//! A door in memory, and one to the network, of which both ends are here.
#![tactic(auto)]

#[cfg(test)]
mod loopback;
#[cfg(test)]
mod memory;
