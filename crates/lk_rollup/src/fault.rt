use lk_val::{NoMemory, Text};

/// Why an aggregate table or a derived one is not made.
#[derive(Drop)]
pub enum BuildFault {
    /// The table of the name would have more than 1,000,000 cells. (G2)
    G2(Text),
    /// Want of memory.
    NoMemory,
}

impl From<NoMemory> for BuildFault {
    ghost use Rattle.std.specs.Prelude.{◌≡◌};
    ghost use Rattle.lk_rollup.specs.declared.fault.BuildFault.TheVariants as fault;

    ghost from_gives = { λ _ e. e ≡ fault.NoMemory };

    fn from(_: NoMemory) -> BuildFault {
        BuildFault::NoMemory
    }
}
