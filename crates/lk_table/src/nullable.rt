ghost use Rattle.std.specs.Prelude.{◌≡◌, ◌<◌, ◌++◌, ◌∷◌, [], OnErr, OnOk, None, length, replicate, slice_index_or};

use lk_val::NoMemory;
use std::alloc::Global;
use std::marker::Model;

/// The cells of a column, `None` where a cell is null. The nulls in front of the first known cell are counted only, and
/// take no memory. Clauses see the list.
#[derive(Drop)]
pub struct Nullable<T> {
    // The number of nulls in front of the cells that are held.
    nulls: usize,
    cells: Vec<Option<T>>,
}

impl<T> Model for Nullable<T> {
    ghost use Rattle.std.specs.Prelude.{List, Option};
    ghost use Rattle.lk_table.specs.Nulls.{behind_nulls};

    ghost Value = { List (Option T) };

    ghost view = { λ column. behind_nulls column.nulls column.cells.items };
}

impl<T: Copy> Nullable<T> {
    /// So many nulls, which take no memory.
    pub(crate) fn nulls(alloc: Global, count: usize) -> Nullable<T>
        ensures { result ≡ replicate count None }
    {
        Nullable {
            nulls: count,
            cells: Vec::new(alloc),
        }
    }

    /// The cell of a row.
    pub(crate) fn get(&self, row: usize) -> Option<T>
        requires { row < length self.now }
        ensures { result ≡ slice_index_or self.now row None }
    {
        if row < self.nulls {
            None
        } else {
            self.cells[row - self.nulls]
        }
    }

    /// Adds a cell at the end; after an error the cells are as before.
    pub(crate) fn push(&mut self, cell: Option<T>) -> Result<(), NoMemory>
        ensures ok { OnOk result (self.new ≡ self.old ++ cell ∷ []) }
        ensures err { OnErr result (self.new ≡ self.old) }
    {
        if cell.is_none() && self.cells.is_empty() {
            let Some(nulls) = self.nulls.checked_add(1) else {
                return Err(NoMemory);
            };
            self.nulls = nulls;
            return Ok(());
        }
        match self.cells.push(cell) {
            Ok(()) => Ok(()),
            Err(_) => Err(NoMemory),
        }
    }

    /// Gives back the memory that no cell takes.
    pub(crate) fn shrink(&mut self)
        ensures { self.new ≡ self.old }
    {
        self.cells.shrink_to_fit();
    }
}
