//! Where connections come from, in memory and over the network, and what a test may hold of their queries.
#![tactic(auto)]

mod door;
mod gate;
mod mem_door;
mod tcp_door;
mod tcp_link;

pub use door::Door;
pub use gate::{Gate, Open};
pub use mem_door::MemDoor;
pub use tcp_door::{ACCEPT_TRIES, TcpDoor, tcp_doors_are_sent};
pub use tcp_link::{READ_SECONDS, TcpLink, WRITE_SECONDS};
