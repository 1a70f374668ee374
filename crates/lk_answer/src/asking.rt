ghost use Rattle.std.specs.Prelude.{◌≡◌, OnErr, OnOk};
ghost use Rattle.lk_val.specs.Memory.{UnlessMemory};
ghost use Rattle.lk_val.specs.Years.{IsMomentInYears};
ghost use Rattle.lk_ask.specs.Asks.{is_no_memory};
ghost use Rattle.lk_answer.specs.Answers.{HasCounted, IsAnswered};

use crate::answering::answer;
use crate::scratch::Scratch;
use lk_ask::{AskFault, refused};
use lk_edition::Edition;
use lk_query::{bind_body, bound_queries_are_in_their_model, resolved_models_have_few_joins};
use lk_types::Reply;
use lk_val::Text;
use std::alloc::Global;

/// What a caller's body over an explore is answered on an edition, or its first refusal: those of its binding (Q2, Q1, Q3, Q8,
/// Q4, Q5, Q6, Q7), then more than 1,000,000 visible rows (Q10), then two values of a measure for one key (Q9). A query that an
/// aggregate table fits, and that is not to be fresh, is answered from that table's rows, of those that fit the one with the
/// fewest dimensions and of several such the first declared, and names the snapshot at which it was built; it sees no row of a
/// table, so Q10 is no refusal of it. Any other that reads a persisted derived table, directly or through others, is answered
/// over the tables of its datagroup's build, and names that snapshot; and the rest over the current tables, naming the edition's.
/// Derived tables without a datagroup are computed for it. It is in CSV where `csv` holds or the query asks so. `now` counts
/// seconds from 1970-01-01 00:00:00 UTC. After an answer `scratch` counts the rows that it comes of: those of the aggregate
/// table, or the visible ones, all of them joined rows of the tables; after a refusal both counts are 0. (Looker, LookML
/// reference: aggregate_table, derived_table, datagroup_trigger; lookd)
pub fn ask(
    alloc: Global,
    e: &Edition,
    user: &Text,
    explore: &Text,
    body: &[u8],
    now: i64,
    csv: bool,
    scratch: &mut Scratch,
) -> Result<Reply, AskFault>
    requires { IsMomentInYears now }
    ensures answer { UnlessMemory is_no_memory result (IsAnswered e.now user.now explore.now body.now now csv) }
    ensures counts { OnOk result (HasCounted e.now user.now explore.now body.now now scratch.new) }
    ensures none { OnErr result ((scratch.new.joined_rows ≡ 0) × (scratch.new.rollup_rows ≡ 0)) }
{
    *scratch = Scratch::new();
    e.stands();
    resolved_models_have_few_joins();
    match bind_body(alloc, e.model(), e.users(), user, explore, body, now) {
        Err(fault) => Err(refused(fault)),
        Ok(bound) => {
            bound_queries_are_in_their_model();
            answer(alloc, e, bound, now, csv, scratch)
        }
    }
}
