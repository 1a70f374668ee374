// The store of the lines, and the file that it is in if it is in one.
use crate::fault::CaseFault;
use lk_keep::{Held, MemKeeper, SqlKeeper};
use lk_val::Text;
use std::alloc::Global;

/// The store that the lines call, and how many files of stores were begun.
#[derive(Drop)]
pub struct Store {
    keeper: Option<Held>,
    files: u32,
}

/// Where the store of the next lines is.
#[derive(Drop)]
pub enum Place {
    Nowhere,
    Memory(MemKeeper),
    File(Text),
}

impl Store {
    /// No store.
    pub fn none() -> Store {
        Store {
            keeper: None,
            files: 0,
        }
    }

    /// Lets go of the store, and makes the next one. (One function does both, since each that does either is dear to prove.)
    pub fn change(&mut self, rt: &HostRuntime, place: Place) -> Result<(), CaseFault> {
        self.keeper = match place {
            Place::Nowhere => None,
            Place::Memory(keeper) => Some(Held::Memory(keeper)),
            Place::File(path) => {
                let system: HostRuntime = rt.clone()?;
                Some(Held::File(SqlKeeper::at(system, path)))
            }
        };
        Ok(())
    }

    /// A new file is begun.
    pub fn begin(&mut self) {
        self.files = self.files.saturating_add(1);
    }

    /// The path of the file that was begun last.
    pub fn path(&self, alloc: Global) -> Result<Text, CaseFault> {
        let number = self.files;
        Ok(Text::from_string(format!(in alloc; "store{number}.db")?))
    }

    /// The store.
    pub fn keeper(&mut self) -> Result<&mut Held, CaseFault> {
        self.keeper.as_mut().ok_or(CaseFault::NoSuchCase)
    }

    /// How many of its calls failed.
    pub fn faults(&self) -> Result<u64, CaseFault> {
        match &self.keeper {
            Some(Held::Memory(keeper)) => Ok(keeper.faults()),
            Some(Held::File(keeper)) => Ok(keeper.faults()),
            None => Err(CaseFault::NoSuchCase),
        }
    }
}
