ghost use Rattle.std.specs.Prelude.{◌≡◌};
ghost use Rattle.lk_val.specs.Cells.{cell_cmp, cell_rank};

use crate::frac::Frac;
use crate::value::{Value, cmp_value};
use std::cmp::Ordering;

/// A cell of an answer: a value, a number of pairs, a sum as a count of 1/10,000, or a fraction.
#[derive(Drop)]
pub enum Cell {
    Value(Value),
    Count(u64),
    Sum(i128),
    Frac(Frac),
}

/// The order of two cells of one column: by their values, and null before each number. Cells of two kinds are in
/// the order of the kinds. It takes no memory.
pub fn cmp_cell(a: &Cell, b: &Cell) -> Ordering
    ensures { result ≡ cell_cmp a.now b.now }
{
    match (a, b) {
        (Cell::Value(a), Cell::Value(b)) => cmp_value(a, b),
        (Cell::Count(a), Cell::Count(b)) => a.cmp(b),
        (Cell::Sum(a), Cell::Sum(b)) => a.cmp(b),
        (Cell::Frac(a), Cell::Frac(b)) => (*a).cmp(*b),
        _ => rank_of(a).cmp(&rank_of(b)),
    }
}

fn rank_of(cell: &Cell) -> u8
    ensures { result ≡ cell_rank cell.now }
{
    match cell {
        Cell::Value(_) => 0,
        Cell::Count(_) => 1,
        Cell::Sum(_) => 2,
        Cell::Frac(_) => 3,
    }
}
