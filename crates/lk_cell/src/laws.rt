ghost use Rattle.std.specs.Prelude.{◌≡◌, ℕ, List, IfSome, true};
ghost use Rattle.lk_types.specs.Dates.{is_dated};
ghost use Rattle.lk_types.specs.Tables.{is_of_kind};
ghost use Rattle.lk_types.specs.declared.schema.Kind.{Kind};
ghost use Rattle.lk_cell.specs.CellValues.{cell_value};

/// A value that a cell reads as is of the cell's kind, and a day or a moment is one of the years 1 to 9999. A law: it
/// computes nothing.
pub fn cells_are_of_their_kind()
    ensures kind { (kind : Kind) (cell : List ℕ) → IfSome (cell_value kind cell) (λ v. is_of_kind kind v ≡ true) }
    ensures years { (kind : Kind) (cell : List ℕ) → IfSome (cell_value kind cell) (λ v. is_dated v ≡ true) }
{}
