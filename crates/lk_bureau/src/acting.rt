ghost use Rattle.std.specs.Prelude.{◌≡◌, ◌≤◌, ℕ, List, IfOk};
ghost use Rattle.lk_val.specs.Years.{IsMomentInYears};
ghost use Rattle.lk_io.specs.Causes.{Rose};
ghost use Rattle.lk_types.specs.declared.answer.Reply.{Reply};
ghost use Rattle.lk_edition.specs.Standings.{Standing};
ghost use Rattle.lk_bureau.specs.Outcomes.{IsCommand, load_call};
ghost use Rattle.lk_bureau.specs.Steps.{IsCarriedOut, IsLeft};
ghost use Rattle.lk_bureau.specs.Told.{IsTold};
ghost use Rattle.lk_bureau.specs.declared.bureau.Acted.TheVariants as acted;

use crate::bureau::{Acted, Bureau};
use lk_edition::LoadCall;
use lk_front::Shelves;
use lk_http::Target;
use lk_ledger::Keeper;
use lk_val::{Bytes, NoMemory, Text};
use std::alloc::Global;
use std::sync::Wait;

/// The step under the lock. Readers are first shown the present edition once more, as often as it takes for the list to be no
/// shorter than `least`, which is what the connection has seen. Then the load or the check is planned on that edition, offered,
/// saved and published; where it changes nothing, the present edition is published. So the note's list is longer than `least`.
/// `Failed` comes only where the store's count of faults rose; after it and after want of memory nothing but the present edition
/// was published. `now` counts seconds from 1970-01-01 00:00:00 UTC. It may wait for readers of the older copy. (lookd)
pub fn act<K: Keeper + Drop, J: Shelves, S: Wait + Drop, R: Wait>(
    rt: &R,
    alloc: Global,
    bureau: &mut Bureau<K, J, S>,
    least: u64,
    user: &Text,
    target: &Target,
    body: &Bytes,
    now: i64,
) -> Acted<J>
    requires command { IsCommand target.now }
    requires moment { IsMomentInYears now }
    ensures told { (reply : Reply) (note : List Standing) → result ≡ acted.Done reply note
        → IsTold least user.now target.now body.now now reply note }
    ensures done { (reply : Reply) (note : List Standing) → result ≡ acted.Done reply note
        → IsCarriedOut user.now target.now body.now now reply note bureau.old bureau.new (K.held bureau.old.keeper) (K.held bureau.new.keeper) }
    ensures failed { result ≡ acted.Failed → Rose (K.faults bureau.old.keeper) (K.faults bureau.new.keeper)
        × IsLeft bureau.old bureau.new (K.held bureau.old.keeper) (K.held bureau.new.keeper) }
    ensures memory { result ≡ acted.NoMemory → IsLeft bureau.old bureau.new (K.held bureau.old.keeper) (K.held bureau.new.keeper) }
    ensures counts { K.faults bureau.old.keeper ≤ K.faults bureau.new.keeper }
{
    let Ok(()) = bureau.pad(rt, least) else {
        return Acted::NoMemory;
    };
    bureau.last();
    match target {
        Target::Query(_) => unreachable!(),
        Target::Load(table, replace, id) => {
            match copy_call(alloc, user, table, *replace, id, body) {
                Ok(call) => bureau.load(rt, alloc, &call),
                Err(NoMemory) => Acted::NoMemory,
            }
        }
        Target::Check => bureau.check(rt, alloc, user, now),
    }
}

// The load of a request, which keeps its own.
fn copy_call(
    alloc: Global,
    user: &Text,
    table: &Text,
    replace: bool,
    id: &Text,
    body: &Bytes,
) -> Result<LoadCall, NoMemory>
    ensures { IfOk result (λ call. call ≡ load_call user.now table.now replace id.now body.now) }
{
    Ok(LoadCall {
        user: user.copy(alloc)?,
        table: table.copy(alloc)?,
        replace,
        id: id.copy(alloc)?,
        body: body.copy(alloc)?,
    })
}
