// The greatest value of a column, lent by the table.

ghost use Rattle.std.specs.Prelude.{◌≡◌};
ghost use Rattle.lk_val.specs.ValueRefs.{value_of_ref};
ghost use Rattle.lk_types.specs.Tables.{column_values};
ghost use Rattle.lk_semantics.specs.Measures.{greater, greatest_of};
ghost use Rattle.lk_table.specs.Versions.{rows_of};

use crate::block::Block;
use crate::part::Part;
use crate::version::TableVersion;
use lk_val::ValueRef;
use std::cmp::Ordering;

impl TableVersion {
    /// The greatest value of a column, where it stands; null where no cell is known, or there is no such column. It looks at
    /// each cell of the column once.
    pub fn greatest(&self, column: u32) -> ValueRef<'_>
        ensures { value_of_ref result ≡ greatest_of (column_values self.now.rows column) }
    {
        greatest_of(&self.parts, column)
    }
}

fn greatest_of(parts: &[Part], column: u32) -> ValueRef<'_>
    ensures { value_of_ref result ≡ greatest_of (column_values (rows_of parts.now) column) }
{
    let mut most = ValueRef::Null;
    for part in parts {
        most = greater(greatest_in(part.block(), column), most);
    }
    most
}

fn greatest_in(block: &Block, column: u32) -> ValueRef<'_>
    ensures { value_of_ref result ≡ greatest_of (column_values block.now.rows column) }
{
    let mut most = ValueRef::Null;
    for row in 0..block.len() {
        most = greater(block.cell(row, column), most);
    }
    most
}

// The greater of two values: null comes first.
#[tactic(auto, using(crate::proofs::GreatestLaws::greater_by))]
fn greater<'a>(a: ValueRef<'a>, b: ValueRef<'a>) -> ValueRef<'a>
    ensures { value_of_ref result ≡ greater (value_of_ref a.entry) (value_of_ref b.entry) }
{
    if a.cmp(b) == Ordering::Greater { a } else { b }
}
