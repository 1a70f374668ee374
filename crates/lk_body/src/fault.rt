use lk_val::{NoMemory, Text};

/// Why a query is refused. A query that could be refused for several reasons is refused for the first of Q2, Q1, Q3, Q8,
/// Q4, Q5, Q6, Q7. (lookd)
#[derive(Drop)]
pub enum QueryFault {
    /// No explore has the name. (Q1)
    Q1(Text),
    /// No user has the name. (Q2)
    Q2(Text),
    /// The body is no query. (Q3)
    Q3,
    /// The name is no field of the explore, or a sort is by a field that is not asked for. (Q4)
    Q4(Text),
    /// The caller lacks the attribute of the access filter on the field. (Q5)
    Q5 { field: Text, attribute: Text },
    /// The text of the filter on the field is no filter of its kind. The place is the number of bytes before the fault.
    /// (Q6)
    Q6 { field: Text, place: u32 },
    /// The measure counts rows of a view that has no primary key and that a join can repeat. (Q7)
    Q7(Text),
    /// The limit is below 1 or above 5,000. (Q8)
    Q8(i64),
    /// Want of memory.
    NoMemory,
}

impl From<NoMemory> for QueryFault {
    ghost use Rattle.std.specs.Prelude.{◌≡◌};
    ghost use Rattle.lk_body.specs.declared.fault.QueryFault.TheVariants as fault;

    ghost from_gives = { λ _ e. e ≡ fault.NoMemory };

    fn from(_: NoMemory) -> QueryFault {
        QueryFault::NoMemory
    }
}
