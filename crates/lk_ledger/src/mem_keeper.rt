ghost use Rattle.std.specs.Prelude.{◌≡◌, ◌≤◌, ◌↔◌, Some, IfOk, OnOk, OnErr, IsErrOf, IsTrue, vec_len};
ghost use Rattle.std.specs.Vec.{vec_capacity};
ghost use Rattle.lk_ledger.specs.Causes.{HasKeepCause};
ghost use Rattle.lk_io.specs.Memory.{no_calls, is_due, after_call};
ghost use Rattle.lk_ledger.specs.Saving.{other_chunks, after_load, after_check};

use crate::command::Command;
use crate::faults::KeepFault;
use crate::keeper::Keeper;
use crate::kept::{Chunk, Kept, KeptId};
use lk_io::Calls;
use lk_val::{Copied, Items, NoMemory, Text};
use std::alloc::Global;
use std::marker::Model;

/// A store of loads in memory, of which chosen calls fail.
#[derive(Drop)]
pub struct MemKeeper {
    number: u64,
    chunks: Vec<Chunk>,
    ids: Vec<KeptId>,
    calls: Calls,
}

impl Model for MemKeeper {
    ghost use Rattle.lk_ledger.specs.Memory.{Holding};

    ghost Value = { Holding };

    ghost view = { λ keeper. record {
      kept = record {
        number = keeper.number;
        chunks = keeper.chunks.items;
        ids = keeper.ids.items;
      };
      calls = keeper.calls;
    } };
}

impl MemKeeper {
    /// A store that holds this. The calls with the numbers in `failing`, from 0, fail.
    pub fn new(kept: Kept, failing: Items<u64>) -> MemKeeper
        ensures { result ≡ record { kept = kept; calls = no_calls failing } }
    {
        MemKeeper {
            number: kept.number,
            chunks: kept.chunks.into_vec(),
            ids: kept.ids.into_vec(),
            calls: Calls::none(failing),
        }
    }

    /// How many calls failed.
    pub fn faults(&self) -> u64
        ensures { result ≡ self.now.calls.faults }
    {
        self.calls.faults
    }

    // A copy of what is held.
    fn copy_kept(&self, alloc: Global) -> Result<Kept, NoMemory>
        ensures { IfOk result (λ kept. kept ≡ self.now.kept) }
    {
        Ok(Kept {
            number: self.number,
            chunks: copy_each(alloc, self.chunks.as_slice())?,
            ids: copy_each(alloc, self.ids.as_slice())?,
        })
    }

    // Adds a load to what is held, which stays as it was after an error.
    fn add_load(&mut self, alloc: Global, command: &Command) -> Result<(), NoMemory>
        ensures ok { OnOk result (self.new.kept ≡ after_load self.old.kept command.now) }
        ensures err { OnErr result (self.new.kept ≡ self.old.kept) }
        ensures calls { self.new.calls ≡ self.old.calls }
    {
        let chunk = command.chunk(alloc)?;
        let id = command.kept_id(alloc)?;
        self.chunks.reserve(1)?;
        self.ids.reserve(1)?;
        // The copies are made and there is room for both: from here on nothing fails.
        if command.replace {
            drop_batches(&mut self.chunks, &command.table);
        }
        self.chunks.push_reserved(chunk);
        self.ids.push_reserved(id);
        self.number = command.number;
        Ok(())
    }
}

// Drops the batches of the table, and keeps the room for as many.
fn drop_batches(chunks: &mut Vec<Chunk>, table: &Text)
    ensures others { chunks.new.items ≡ other_chunks table.now chunks.old.items }
    ensures len { vec_len chunks.new ≤ vec_len chunks.old }
    ensures capacity { vec_capacity chunks.new ≡ vec_capacity chunks.old }
{
    chunks.retain(|chunk| chunk.table != *table);
}

// A copy of each.
fn copy_each<T: Copied + Drop>(alloc: Global, items: &[T]) -> Result<Items<T>, NoMemory>
    ensures { IfOk result (λ copies. copies ≡ items.now) }
{
    let mut copies = Items::new(alloc);
    for item in items {
        copies.push(item.copied(alloc)?)?;
    }
    Ok(copies)
}

impl Keeper for MemKeeper {
    ghost held = { λ keeper. Some keeper.kept };

    ghost handed = { λ keeper kept. kept ≡ keeper.kept };

    ghost faults = { λ keeper. keeper.calls.faults };

    fn load_all(&mut self, alloc: Global) -> Result<Kept, KeepFault>
        ensures kept { IfOk result (λ kept. kept ≡ self.old.kept) }
        ensures same { self.new.kept ≡ self.old.kept }
        ensures cause { HasKeepCause self.old.calls.faults self.new.calls.faults result }

        ensures fails { IsErrOf result KeepFault.Failed ↔ IsTrue (is_due self.old.calls) }
        ensures calls { self.new.calls ≡ after_call (is_due self.old.calls) self.old.calls }
    {
        if self.calls.count() {
            return Err(KeepFault::Failed);
        }
        Ok(self.copy_kept(alloc)?)
    }

    fn save_load(&mut self, alloc: Global, command: &Command) -> Result<(), KeepFault>
        ensures ok { OnOk result (self.new.kept ≡ after_load self.old.kept command.now) }
        ensures err { OnErr result (self.new.kept ≡ self.old.kept) }
        ensures cause { HasKeepCause self.old.calls.faults self.new.calls.faults result }

        ensures fails { IsErrOf result KeepFault.Failed ↔ IsTrue (is_due self.old.calls) }
        ensures calls { self.new.calls ≡ after_call (is_due self.old.calls) self.old.calls }
    {
        if self.calls.count() {
            return Err(KeepFault::Failed);
        }
        Ok(self.add_load(alloc, command)?)
    }

    fn save_check(&mut self, _: Global, number: u64) -> Result<(), KeepFault>
        ensures ok { OnOk result (self.new.kept ≡ after_check self.old.kept number) }
        ensures err { OnErr result (self.new.kept ≡ self.old.kept) }
        ensures cause { HasKeepCause self.old.calls.faults self.new.calls.faults result }

        ensures fails { IsErrOf result KeepFault.Failed ↔ IsTrue (is_due self.old.calls) }
        ensures calls { self.new.calls ≡ after_call (is_due self.old.calls) self.old.calls }
    {
        if self.calls.count() {
            return Err(KeepFault::Failed);
        }
        self.number = number;
        Ok(())
    }
}
