ghost use Rattle.lk_keep.specs.System.{told_by, handed_by, faults_of};

use crate::sql_keeper::SqlKeeper;
use lk_ledger::{Command, KeepFault, Keeper, Kept, MemKeeper};
use std::alloc::Global;

/// The store of a run: in memory, which tells what it holds, or in a file, of which it tells what `F` does: nothing, by default.
#[derive(Drop)]
pub enum Held<F = SqlKeeper> {
    Memory(MemKeeper),
    File(F),
}

impl<F: Keeper> Keeper for Held<F> {
    ghost held = { told_by F.held };

    ghost handed = { handed_by F.handed };

    ghost faults = { faults_of F.faults };

    fn load_all(&mut self, alloc: Global) -> Result<Kept, KeepFault> {
        match self {
            Held::Memory(keeper) => keeper.load_all(alloc),
            Held::File(keeper) => keeper.load_all(alloc),
        }
    }

    fn save_load(&mut self, alloc: Global, command: &Command) -> Result<(), KeepFault> {
        match self {
            Held::Memory(keeper) => keeper.save_load(alloc, command),
            Held::File(keeper) => keeper.save_load(alloc, command),
        }
    }

    fn save_check(&mut self, alloc: Global, number: u64) -> Result<(), KeepFault> {
        match self {
            Held::Memory(keeper) => keeper.save_check(alloc, number),
            Held::File(keeper) => keeper.save_check(alloc, number),
        }
    }
}
