ghost use Rattle.std.specs.Prelude.{◌≡◌, ◌<◌, ◌++◌, ◌∷◌, [], OnErr, OnOk, Some, None, if◌then◌else◌, length, replicate, slice_index_or};

use lk_val::NoMemory;
use std::alloc::Global;
use std::marker::Model;

/// The counts of a column, `None` where a cell is null. Each takes 9 bytes, where an `Option<i64>` takes 16; but the nulls
/// in front of the first known count are counted only, and take no memory. Clauses see the list.
#[derive(Drop)]
pub struct Counts {
    // The number of nulls in front of the counts that are held.
    nulls: usize,
    // 0 where a cell is null.
    counts: Vec<i64>,
    present: Vec<bool>,
}

impl Model for Counts {
    ghost use Rattle.std.specs.Prelude.{◌≡◌, length, List, Option, ℤ};
    ghost use Rattle.lk_table.specs.Counts.{counts_in};
    ghost use Rattle.lk_table.specs.Nulls.{behind_nulls};

    ghost Value = { List (Option ℤ) };

    ghost view = { λ column.
        behind_nulls column.nulls (counts_in column.present.items column.counts.items) };

    ghost invariant = { λ column. length column.present.items ≡ length column.counts.items };
}

impl Counts {
    /// So many nulls, which take no memory.
    pub(crate) fn nulls(alloc: Global, count: usize) -> Counts
        ensures { result ≡ replicate count None }
    {
        Counts {
            nulls: count,
            counts: Vec::new(alloc),
            present: Vec::new(alloc),
        }
    }

    /// The count of a row.
    pub(crate) fn get(&self, row: usize) -> Option<i64>
        requires { row < length self.now }
        ensures { result ≡ slice_index_or self.now row None }
    {
        if row < self.nulls {
            return None;
        }
        let held = row - self.nulls;
        option_of(self.present[held], self.counts[held])
    }

    /// Adds a count at the end; after an error the counts are as before.
    pub(crate) fn push(&mut self, count: Option<i64>) -> Result<(), NoMemory>
        ensures ok { OnOk result (self.new ≡ self.old ++ count ∷ []) }
        ensures err { OnErr result (self.new ≡ self.old) }
    {
        if count.is_none() && self.counts.is_empty() {
            let Some(nulls) = self.nulls.checked_add(1) else {
                return Err(NoMemory);
            };
            self.nulls = nulls;
            return Ok(());
        }
        match self.counts.push(count.unwrap_or(0)) {
            Ok(()) => {}
            Err(_) => return Err(NoMemory),
        }
        match self.present.push(count.is_some()) {
            Ok(()) => Ok(()),
            Err(_) => {
                self.counts.pop();
                Err(NoMemory)
            }
        }
    }

    /// Gives back the memory that no count takes.
    pub(crate) fn shrink(&mut self)
        ensures { self.new ≡ self.old }
    {
        self.counts.shrink_to_fit();
        self.present.shrink_to_fit();
    }
}

fn option_of(is_present: bool, count: i64) -> Option<i64>
    ensures { result ≡ (if is_present then Some count else None) }
{
    if is_present { Some(count) } else { None }
}
