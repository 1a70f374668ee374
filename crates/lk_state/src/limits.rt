ghost use Rattle.std.specs.Prelude.{◌≡◌, List, length};
ghost use Rattle.lk_state.specs.Limits.{are_large, is_over};
ghost use Rattle.lk_ledger.specs.declared.kept.KeptId.{KeptId};

use lk_table::{TableVersion, size};

// The most cells of all tables together.
const CELL_LIMIT: u64 = 4_000_000;

// The most bytes in the text cells of all tables together.
const TEXT_LIMIT: u64 = 134_217_728;

// The most loads that are kept.
const LOAD_LIMIT: usize = 100_000;

// The greatest number of a state.
const NUMBER_LIMIT: u64 = 9_223_372_036_854_775_807;

/// Whether a state of these tables, so many kept loads and this number holds too much (L6). (lookd)
pub fn is_over(number: u64, tables: &[TableVersion], loads: usize) -> bool
    ensures { (ids : List KeptId) → length ids ≡ loads
        → result ≡ is_over (record { number = number; tables = tables.now; ids = ids }) }
{
    are_large(tables) || loads > LOAD_LIMIT || number > NUMBER_LIMIT
}

fn are_large(tables: &[TableVersion]) -> bool
    ensures { result ≡ are_large tables.now }
{
    let mut cells: u64 = 0;
    let mut text: u64 = 0;
    for table in tables {
        let size = size(table);
        cells = cells.saturating_add(size.cells);
        text = text.saturating_add(size.text);
    }
    cells > CELL_LIMIT || text > TEXT_LIMIT
}
