ghost use Rattle.std.specs.Prelude.{◌≡◌};

/// What the last query went over: the joined rows of tables that its caller may see, or the rows of an aggregate table.
#[derive(Clone, Copy, PartialEq, Eq)]
pub struct Scratch {
    pub joined_rows: u64,
    pub rollup_rows: u64,
}

impl Scratch {
    /// Counts of no query. It takes no memory.
    pub fn new() -> Scratch
        ensures { (result.joined_rows ≡ 0) × (result.rollup_rows ≡ 0) }
    {
        Scratch {
            joined_rows: 0,
            rollup_rows: 0,
        }
    }
}
