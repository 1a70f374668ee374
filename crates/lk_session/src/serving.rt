ghost use Rattle.std.specs.Prelude.{◌≤◌, IfOk, OnErr};
ghost use Rattle.lk_val.specs.Years.{IsMomentInYears};
ghost use Rattle.lk_edition.specs.Checks.{check_planned};
ghost use Rattle.lk_edition.specs.Loads.{load_planned};
ghost use Rattle.lk_edition.specs.Offices.{IsPlanned, standing_in};
ghost use Rattle.lk_session.specs.Servers.{CheckDoes, IsCommitted, IsQueried, LoadDoes, Serves, Stays, by_edition, keeper_in, store_of};

use lk_answer::{Scratch, ask};
use lk_ask::AskFault;
use lk_command_reply::{
    CheckFault, LoadFault, reply_check_refusal, reply_load_refusal, reply_unsaved,
};
use lk_edition::{CheckPlan, LoadCall, LoadPlan, Office, Pending};
use lk_http::{Request, Target};
use lk_ledger::{KeepFault, Keeper};
use lk_reply::reply_refusal;
use lk_types::Reply;
use lk_val::{Bytes, NoMemory, Text};
use std::alloc::Global;

// The reply to a request at a moment.
pub(crate) fn serve<K: Keeper>(
    alloc: Global,
    office: &mut Office<K>,
    request: Request,
    now: i64,
) -> Result<Reply, NoMemory>
    requires moment { IsMomentInYears now }
    ensures served { IfOk result (λ reply. Serves by_edition (standing_in office.old) now request reply (standing_in office.new)
        (store_of (K.held (keeper_in office.old)) (K.faults (keeper_in office.old)))
        (store_of (K.held (keeper_in office.new)) (K.faults (keeper_in office.new)))) }
    ensures stays { OnErr result (Stays (standing_in office.old) (standing_in office.new)
        (store_of (K.held (keeper_in office.old)) (K.faults (keeper_in office.old)))
        (store_of (K.held (keeper_in office.new)) (K.faults (keeper_in office.new)))) }
    ensures counts { K.faults (keeper_in office.old) ≤ K.faults (keeper_in office.new) }
{
    let Request {
        user,
        target,
        body,
        close: _,
    } = request;
    match target {
        Target::Query(explore) => query(alloc, office, &user, &explore, &body, now),
        Target::Load(table, replace, id) => load(
            alloc,
            office,
            &LoadCall {
                user,
                table,
                replace,
                id,
                body,
            },
        ),
        Target::Check => check(alloc, office, &user, now),
    }
}

fn query<K: Keeper>(
    alloc: Global,
    office: &Office<K>,
    user: &Text,
    explore: &Text,
    body: &Bytes,
    now: i64,
) -> Result<Reply, NoMemory>
    requires { IsMomentInYears now }
    ensures { IfOk result (IsQueried by_edition (standing_in office.now) user.now explore.now body.now now) }
{
    let edition = office.edition()?;
    let mut scratch = Scratch::new();
    let asked = ask(
        alloc,
        &*edition,
        user,
        explore,
        body.as_slice(),
        now,
        false,
        &mut scratch,
    );
    match asked {
        Ok(reply) => Ok(reply),
        Err(AskFault::NoMemory) => Err(NoMemory),
        Err(fault) => reply_refusal(alloc, &fault),
    }
}

fn load<K: Keeper>(
    alloc: Global,
    office: &mut Office<K>,
    call: &LoadCall,
) -> Result<Reply, NoMemory>
    ensures loaded { IfOk result (λ reply. LoadDoes (standing_in office.old) (load_planned (standing_in office.old) call.now)
        reply (standing_in office.new)
        (store_of (K.held (keeper_in office.old)) (K.faults (keeper_in office.old)))
        (store_of (K.held (keeper_in office.new)) (K.faults (keeper_in office.new)))) }
    ensures stays { OnErr result (Stays (standing_in office.old) (standing_in office.new)
        (store_of (K.held (keeper_in office.old)) (K.faults (keeper_in office.old)))
        (store_of (K.held (keeper_in office.new)) (K.faults (keeper_in office.new)))) }
    ensures counts { K.faults (keeper_in office.old) ≤ K.faults (keeper_in office.new) }
{
    match office.plan_load(alloc, call) {
        Ok(LoadPlan::Kept(reply)) => Ok(reply),
        Ok(LoadPlan::New(pending)) => commit(alloc, office, pending),
        Err(LoadFault::NoMemory) => Err(NoMemory),
        Err(fault) => reply_load_refusal(alloc, &fault),
    }
}

fn check<K: Keeper>(
    alloc: Global,
    office: &mut Office<K>,
    user: &Text,
    now: i64,
) -> Result<Reply, NoMemory>
    requires { IsMomentInYears now }
    ensures checked { IfOk result (λ reply. CheckDoes (standing_in office.old) (check_planned (standing_in office.old) user.now now)
        reply (standing_in office.new)
        (store_of (K.held (keeper_in office.old)) (K.faults (keeper_in office.old)))
        (store_of (K.held (keeper_in office.new)) (K.faults (keeper_in office.new)))) }
    ensures stays { OnErr result (Stays (standing_in office.old) (standing_in office.new)
        (store_of (K.held (keeper_in office.old)) (K.faults (keeper_in office.old)))
        (store_of (K.held (keeper_in office.new)) (K.faults (keeper_in office.new)))) }
    ensures counts { K.faults (keeper_in office.old) ≤ K.faults (keeper_in office.new) }
{
    match office.plan_check(alloc, user, now) {
        Ok(CheckPlan::Nothing(reply)) => Ok(reply),
        Ok(CheckPlan::New(pending)) => commit(alloc, office, pending),
        Err(CheckFault::NoMemory) => Err(NoMemory),
        Err(fault) => reply_check_refusal(alloc, &fault),
    }
}

// Commits a load or a check that was planned.
fn commit<K: Keeper>(
    alloc: Global,
    office: &mut Office<K>,
    pending: Pending,
) -> Result<Reply, NoMemory>
    requires { IsPlanned (standing_in office.old) pending }
    ensures done { IfOk result (λ reply. IsCommitted (standing_in office.old) pending reply (standing_in office.new)
        (store_of (K.held (keeper_in office.old)) (K.faults (keeper_in office.old)))
        (store_of (K.held (keeper_in office.new)) (K.faults (keeper_in office.new)))) }
    ensures stays { OnErr result (Stays (standing_in office.old) (standing_in office.new)
        (store_of (K.held (keeper_in office.old)) (K.faults (keeper_in office.old)))
        (store_of (K.held (keeper_in office.new)) (K.faults (keeper_in office.new)))) }
    ensures counts { K.faults (keeper_in office.old) ≤ K.faults (keeper_in office.new) }
{
    // All memory is taken before the store is called.
    let unsaved = reply_unsaved(alloc)?;
    match office.commit(alloc, pending) {
        Ok(saved) => Ok(saved),
        Err(KeepFault::Failed) => Ok(unsaved),
        Err(KeepFault::NoMemory) => Err(NoMemory),
    }
}
