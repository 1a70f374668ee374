ghost use Rattle.std.specs.Prelude.{◌≡◌};
ghost use Rattle.lk_ask.specs.Asks.{refused};

use lk_query::QueryFault;
use lk_val::{NoMemory, Text, Value};

/// Why a caller's query has no answer. Where it could be refused for several reasons, the first of Q2, Q1, Q3, Q8, Q4, Q5,
/// Q6, Q7, Q10, Q9 is told. (lookd)
#[derive(Drop)]
pub enum AskFault {
    /// No explore has the name. (Q1)
    Q1(Text),
    /// No user has the name. (Q2)
    Q2(Text),
    /// The body is no query. (Q3)
    Q3,
    /// The name is no field of the explore, or a sort is by a field that is not asked for. (Q4)
    Q4(Text),
    /// The caller lacks the attribute of the access filter on the field. (Q5)
    Q5 { field: Text, attribute: Text },
    /// The text of the filter on the field is no filter of its kind from this byte on. (Q6)
    Q6 { field: Text, place: u32 },
    /// The measure counts rows of a view that has no primary key and that a join can repeat. (Q7)
    Q7(Text),
    /// The limit is below 1 or above 5,000. (Q8)
    Q8(i64),
    /// Two rows with one key have different values for the measure; the least such key. (Q9)
    Q9 { measure: Text, key: Value },
    /// More than 1,000,000 rows are visible. (Q10)
    Q10,
    /// Want of memory.
    NoMemory,
}

impl From<NoMemory> for AskFault {
    ghost use Rattle.std.specs.Prelude.{◌≡◌};
    ghost use Rattle.lk_ask.specs.declared.fault.AskFault.TheVariants as fault;

    ghost from_gives = { λ _ e. e ≡ fault.NoMemory };

    fn from(_: NoMemory) -> AskFault {
        AskFault::NoMemory
    }
}

/// The refusal of a query that means nothing.
pub fn refused(fault: QueryFault) -> AskFault
    ensures { result ≡ refused fault }
{
    match fault {
        QueryFault::Q1(explore) => AskFault::Q1(explore),
        QueryFault::Q2(user) => AskFault::Q2(user),
        QueryFault::Q3 => AskFault::Q3,
        QueryFault::Q4(name) => AskFault::Q4(name),
        QueryFault::Q5 { field, attribute } => AskFault::Q5 { field, attribute },
        QueryFault::Q6 { field, place } => AskFault::Q6 { field, place },
        QueryFault::Q7(measure) => AskFault::Q7(measure),
        QueryFault::Q8(limit) => AskFault::Q8(limit),
        QueryFault::NoMemory => AskFault::NoMemory,
    }
}
