ghost use Rattle.std.specs.Prelude.{◌≡◌, ◌≤◌, IfErr, IfOk, OnErr, OnOk, Ok, Err};
ghost use Rattle.std.specs.Arc.{arc_value};
ghost use Rattle.lk_val.specs.Memory.{IsUnlessMemory, Unless};
ghost use Rattle.lk_val.specs.Years.{IsMomentInYears};
ghost use Rattle.lk_semantics.specs.Resolved.{IsResolved};
ghost use Rattle.lk_ledger.specs.Causes.{HasKeepCause};
ghost use Rattle.lk_ledger.specs.Saving.{told_after};
ghost use Rattle.lk_state.specs.Openings.{AreSeeds, is_no_memory as is_without_memory};
ghost use Rattle.lk_state.specs.declared.fault.OpenFault.TheVariants as fault;
ghost use Rattle.lk_edition.specs.Checks.{check_planned, is_no_memory as is_no_memory_check};
ghost use Rattle.lk_edition.specs.Loads.{is_no_memory, load_planned};
ghost use Rattle.lk_edition.specs.Offices.{Begins, HasOpenCause, IsOpening, IsPlanned, is_outside, standing_in};
ghost use Rattle.lk_edition.specs.Openings.{standing_opened};

use crate::call::LoadCall;
use crate::checking::plan_check;
use crate::edition::Edition;
use crate::loading::plan_load;
use crate::office::{Office, Unopened};
use crate::plan::{CheckPlan, LoadPlan, Pending, ToSave};
use lk_command_reply::{CheckFault, LoadFault};
use lk_ledger::{KeepFault, Keeper, Kept};
use lk_schema::Users;
use lk_state::OpenFault;
use lk_types::{Model, Reply};
use lk_val::{Bytes, NoMemory, Text};
use std::alloc::Global;
use std::sync::Arc;

impl<K: Keeper> Office<K> {
    /// The office over what a store kept: its batches in their order, and then each seed, a batch in place of the rows of
    /// the table of a number. All datagroups are built over its tables at the moment `now`. `Store` comes only where the store's
    /// count of faults rose; the other faults are those of the definition. The store keeps what it held.
    #[tactic(auto, using(crate::proofs::OfficeLaws::opening, crate::proofs::OfficeLaws::not_opening))]
    pub fn open(
        alloc: Global,
        model: Model,
        users: Users,
        keeper: K,
        seeds: &[(u32, Bytes)],
        now: i64,
    ) -> Result<Office<K>, Unopened<K>>
        requires model { IsResolved model }
        requires seeds { AreSeeds model.schema.tables seeds.now }
        requires years { IsMomentInYears now }
        ensures opened { IfOk result (λ office. IsOpening model users (Begins (K.held keeper) (K.handed keeper)) seeds.now now
            (Ok (standing_in office))) }
        ensures fault { IfErr result (λ unopened. Unless (is_outside unopened.fault)
            (IsOpening model users (Begins (K.held keeper) (K.handed keeper)) seeds.now now (Err unopened.fault))) }
        ensures kept_ok { IfOk result (λ office. K.held office.keeper ≡ K.held keeper) }
        ensures kept_err { IfErr result (λ unopened. K.held unopened.keeper ≡ K.held keeper) }
        ensures cause_ok { IfOk result (λ office. K.faults keeper ≤ K.faults office.keeper) }
        ensures cause_err { IfErr result (λ unopened. HasOpenCause (K.faults keeper) (K.faults unopened.keeper) unopened.fault) }
    {
        let mut keeper = keeper;
        match keeper.load_all(alloc) {
            Ok(kept) => open_over(alloc, model, users, keeper, kept, seeds, now),
            Err(KeepFault::Failed) => Err(Unopened {
                fault: OpenFault::Store,
                keeper,
            }),
            Err(KeepFault::NoMemory) => Err(Unopened {
                fault: OpenFault::NoMemory,
                keeper,
            }),
        }
    }

    /// The present edition, shared.
    pub fn edition(&self) -> Result<Arc<Edition>, NoMemory>
        ensures { IfOk result (λ edition. arc_value edition ≡ standing_in self.now) }
    {
        Ok(Arc::try_clone(&self.edition)?)
    }

    /// What a load comes to on the present edition: its plan, the reply of a load that is kept, or the first refusal. It
    /// changes nothing.
    pub fn plan_load(&self, alloc: Global, call: &LoadCall) -> Result<LoadPlan, LoadFault>
        ensures { IsUnlessMemory is_no_memory result (load_planned (standing_in self.now) call.now) }
    {
        plan_load(alloc, &*self.edition, call)
    }

    /// What a check at a moment comes to on the present edition: its plan, by which all datagroups that trigger are built over the
    /// present tables, the reply where none triggers, or the first refusal (G1, G2). It changes nothing.
    pub fn plan_check(&self, alloc: Global, user: &Text, now: i64) -> Result<CheckPlan, CheckFault>
        requires { IsMomentInYears now }
        ensures { IsUnlessMemory is_no_memory_check result (check_planned (standing_in self.now) user.now now) }
    {
        plan_check(alloc, &*self.edition, user, now)
    }

    /// Commits a load or a check that was planned on the present edition: saves it, and only then moves to the edition after it.
    /// After a fault the office is as it was, and so is what the store tells; `Failed` comes only where the store's count of
    /// faults rose.
    pub fn commit(&mut self, alloc: Global, pending: Pending) -> Result<Reply, KeepFault>
        requires { IsPlanned (standing_in self.old) pending }
        ensures reply { IfOk result (λ reply. reply ≡ pending.reply) }
        ensures moved { OnOk result (standing_in self.new ≡ pending.standing) }
        ensures saved { OnOk result (K.held self.new.keeper ≡ told_after pending.save (K.held self.old.keeper)) }
        ensures stays { OnErr result (standing_in self.new ≡ standing_in self.old) }
        ensures unsaved { OnErr result (K.held self.new.keeper ≡ K.held self.old.keeper) }
        ensures cause { HasKeepCause (K.faults self.old.keeper) (K.faults self.new.keeper) result }
    {
        let Pending {
            edition,
            save,
            reply,
        } = pending;
        match save {
            ToSave::Load(command) => self.keeper.save_load(alloc, &command)?,
            ToSave::Check(number) => self.keeper.save_check(alloc, number)?,
        }
        self.edition = edition;
        Ok(reply)
    }

    /// The store, handed back as it is.
    pub fn close(self) -> K
        ensures { result ≡ self.keeper }
    {
        let Office { edition: _, keeper } = self;
        keeper
    }
}

fn open_over<K: Keeper>(
    alloc: Global,
    model: Model,
    users: Users,
    keeper: K,
    kept: Kept,
    seeds: &[(u32, Bytes)],
    now: i64,
) -> Result<Office<K>, Unopened<K>>
    requires model { IsResolved model }
    requires seeds { AreSeeds model.schema.tables seeds.now }
    requires years { IsMomentInYears now }
    ensures opened { IfOk result (λ office. standing_opened model users kept seeds.now now ≡ Ok (standing_in office)) }
    ensures fault { IfErr result (λ unopened. Unless (is_outside unopened.fault)
        (standing_opened model users kept seeds.now now ≡ Err unopened.fault)) }
    ensures keeper_ok { IfOk result (λ office. office.keeper ≡ keeper) }
    ensures keeper_err { IfErr result (λ unopened. unopened.keeper ≡ keeper) }
    ensures never { IfErr result (λ unopened. unopened.fault ≡ fault.Store → ⊥) }
{
    match share_opening(alloc, model, users, kept, seeds, now) {
        Ok(edition) => Ok(Office { edition, keeper }),
        Err(fault) => Err(Unopened { fault, keeper }),
    }
}

fn share_opening(
    alloc: Global,
    model: Model,
    users: Users,
    kept: Kept,
    seeds: &[(u32, Bytes)],
    now: i64,
) -> Result<Arc<Edition>, OpenFault>
    requires model { IsResolved model }
    requires seeds { AreSeeds model.schema.tables seeds.now }
    requires years { IsMomentInYears now }
    ensures ok { IfOk result (λ edition. standing_opened model users kept seeds.now now ≡ Ok (arc_value edition)) }
    ensures err { IfErr result (λ fault. Unless (is_without_memory fault)
        (standing_opened model users kept seeds.now now ≡ Err fault)) }
    ensures never { IfErr result (λ why. why ≡ fault.Store → ⊥) }
{
    let edition = Edition::open(alloc, model, users, kept, seeds, now)?;
    Ok(Arc::new(alloc, edition)?)
}
