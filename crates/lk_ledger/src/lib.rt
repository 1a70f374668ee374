//! Saved loads: what a store of them tells, hands over and keeps, what saves can have left, and the store in memory.
#![tactic(auto)]

mod command;
mod faults;
mod keeper;
mod kept;
mod mem_keeper;
mod saves;

pub use command::Command;
pub use faults::{KeepFault, faults_after};
pub use keeper::Keeper;
pub use kept::{Chunk, Kept, KeptId};
pub use mem_keeper::MemKeeper;
pub use saves::are_saves;
