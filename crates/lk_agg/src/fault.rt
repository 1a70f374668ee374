use lk_val::{NoMemory, Value};

/// Why groups have no measures.
#[derive(Drop)]
pub enum AggFault {
    /// The measure at a place has two values for the key in one group (Q9). It is the least by group, then by the
    /// measure's place, then by key.
    Conflict { measure: u32, key: Value },
    /// There is no memory for the answer.
    NoMemory,
}

impl From<NoMemory> for AggFault {
    ghost use Rattle.std.specs.Prelude.{◌≡◌};
    ghost use Rattle.lk_agg.specs.declared.fault.AggFault.TheVariants.{NoMemory as MemoryFault};

    ghost from_gives = { λ _ e. e ≡ MemoryFault };

    fn from(_: NoMemory) -> AggFault {
        AggFault::NoMemory
    }
}
