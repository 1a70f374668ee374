ghost use Rattle.std.specs.Prelude.{◌≡◌, slice_index_or};
ghost use Rattle.lk_val.specs.ValueRefs.{value_of_ref};
ghost use Rattle.lk_val.specs.declared.value.Value.TheVariants as value;

use lk_types::Joined;
use lk_val::{Value, ValueRef};

/// A joined row whose cells are looked at where they stand: `row_of` is the row that clauses see.
pub trait HasCells {
    ghost use Rattle.lk_types.specs.declared.rows.Joined.{Joined};

    ghost row_of: { Self → Joined };

    ghost use Rattle.std.specs.Prelude.{◌≡◌};
    ghost use Rattle.lk_val.specs.ValueRefs.{value_of_ref};
    ghost use Rattle.lk_types.specs.Expressions.{column_of};

    /// The value in a column of a part; null where the part is null, has not entered or has no such column.
    fn cell(&self, part: u32, column: u32) -> ValueRef<'_>
        ensures { value_of_ref result ≡ column_of (row_of self.now) part column };
}

impl HasCells for Joined {
    ghost row_of = { λ row. row };

    fn cell(&self, part: u32, column: u32) -> ValueRef<'_> {
        match self.parts.as_slice().get(part as usize) {
            Some(Some(cells)) => cell_of(cells.as_slice(), column),
            _ => ValueRef::Null,
        }
    }
}

// The cell of a column; null past the last.
fn cell_of(cells: &[Value], column: u32) -> ValueRef<'_>
    ensures { value_of_ref result ≡ slice_index_or cells.now column value.Null }
{
    match cells.get(column as usize) {
        Some(value) => value.as_ref(),
        None => ValueRef::Null,
    }
}
