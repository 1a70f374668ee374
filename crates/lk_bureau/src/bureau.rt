ghost use Rattle.std.specs.Prelude.{◌≡◌, ◌≤◌, ◌++◌, ◌∷◌, [], false, length, List, IfOk, OnOk, OnErr, is_ok, true};
ghost use Rattle.lk_val.specs.Years.{IsMomentInYears};
ghost use Rattle.lk_io.specs.Causes.{Rose};
ghost use Rattle.lk_types.specs.declared.answer.Reply.{Reply};
ghost use Rattle.lk_front.specs.Chains.{EndsIn};
ghost use Rattle.lk_command_reply.specs.Refusals.{check_refusal};
ghost use Rattle.lk_edition.specs.Checks.{check_planned, is_no_memory};
ghost use Rattle.lk_edition.specs.Loads.{load_planned};
ghost use Rattle.lk_edition.specs.Offices.{IsPlanned, standing_in};
ghost use Rattle.lk_edition.specs.Standings.{Standing};
ghost use Rattle.lk_bureau.specs.Holdings.{IsPadded, held};
ghost use Rattle.lk_bureau.specs.Outcomes.{carried_out, unchanged};
ghost use Rattle.lk_bureau.specs.Steps.{CheckShows, LoadShows, Publishes, Rests, keeper_in};
ghost use Rattle.lk_bureau.specs.declared.bureau.Acted.TheVariants as acted;

use left_right::Absorb;
use lk_command_reply::{CheckFault, LoadFault, reply_check_refusal, reply_load_refusal};
use lk_edition::{CheckPlan, Edition, LoadCall, LoadPlan, Office, Pending};
use lk_front::Shelves;
use lk_ledger::{KeepFault, Keeper};
use lk_shelf::{Note, Publisher, Stand};
use lk_types::Reply;
use lk_val::{NoMemory, Text};
use std::alloc::Global;
use std::marker::Model;
use std::sync::Wait;

/// The writer: the server's tables with their store, and the publisher of its snapshots. Contracts see the store, the present
/// edition, and the list of what readers were shown, which always ends in that edition. (lookd)
pub struct Bureau<K: Keeper + Drop, J: Shelves, S: Wait + Drop>
where
    Stand<Edition, J>: Absorb<Stand<Edition, J>, State = u64>,
{
    office: Office<K>,
    publisher: Publisher<Edition, J, S>,
}

impl<K: Keeper + Drop, J: Shelves, S: Wait + Drop> Model for Bureau<K, J, S>
where
    Stand<Edition, J>: Absorb<Stand<Edition, J>, State = u64>,
{
    ghost use Rattle.lk_front.specs.Chains.{EndsIn};
    ghost use Rattle.lk_edition.specs.Offices.{standing_in};
    ghost use Rattle.lk_bureau.specs.Holdings.{Held, held};

    ghost Value = { Held K };

    ghost use Rattle.std.specs.Coded.{codes};
    ghost use Rattle.lk_types.specs.FormulaCode.{coded_formula};
    ghost use Rattle.lk_types.specs.CalculationCode.{coded_calculation};

    ghost coded = { Prim.hlevel (codes, coded_formula, coded_calculation) };

    ghost view = { λ bureau. held bureau.office.keeper (standing_in bureau.office) bureau.publisher.0 };

    ghost invariant = { λ bureau. EndsIn bureau.publisher.0 (standing_in bureau.office) };
}

impl<K: Keeper + Drop, J: Shelves, S: Wait + Drop> Drop for Bureau<K, J, S> {
    fn drop(self) {
        let Self {
            office: _office,
            publisher: _publisher,
        } = self;
    }
}

/// What a step under the lock comes to.
#[derive(Drop)]
pub enum Acted<J: Shelves> {
    /// The reply to the load or the check, refusals among them, and what its publish told.
    Done(Reply, Note<Edition, J>),
    /// The store could not save it; its count of faults rose.
    Failed,
    /// Memory was refused.
    NoMemory,
}

impl<K: Keeper + Drop, J: Shelves, S: Wait + Drop> Bureau<K, J, S> {
    /// A writer over an office and a publisher whose last value is the office's edition. It takes no memory.
    pub fn new(office: Office<K>, publisher: Publisher<Edition, J, S>) -> Bureau<K, J, S>
        requires { EndsIn publisher.0 (standing_in office) }
        ensures { result ≡ held (keeper_in office) (standing_in office) publisher.0 }
    {
        Bureau { office, publisher }
    }

    /// What readers were shown ends in the present edition. A law: it computes nothing.
    pub fn last(&self)
        ensures { EndsIn self.now.shown self.now.standing }
    {
        let _ = &self.office;
    }

    /// The store, handed back as it is, once no reader holds what was published before the last value.
    pub fn close(self) -> K
        ensures { result ≡ self.keeper }
    {
        let Self { office, publisher } = self;
        drop(publisher);
        office.close()
    }

    // Publishes the present edition once more.
    fn repeat<R: Wait>(&mut self, rt: &R) -> Result<Note<Edition, J>, NoMemory>
        ensures ok { IfOk result (λ note. (note ≡ self.new.shown)
            × (self.new ≡ held self.old.keeper self.old.standing (self.old.shown ++ self.old.standing ∷ []))) }
        ensures err { OnErr result (self.new ≡ self.old) }
    {
        let edition = self.office.edition()?;
        self.publisher.offer(edition)?;
        Ok(self.publisher.publish(rt))
    }

    // Publishes the present edition until the list is no shorter than this.
    pub(crate) fn pad<R: Wait>(&mut self, rt: &R, least: u64) -> Result<(), NoMemory>
        ensures keeper { self.new.keeper ≡ self.old.keeper }
        ensures standing { self.new.standing ≡ self.old.standing }
        ensures padded { IsPadded self.old.standing self.old.shown self.new.shown }
        ensures ok { OnOk result (least ≤ length self.new.shown) }
    {
        let count = self.publisher.len();
        if count < least {
            for _ in 0..least - count {
                self.repeat(rt)?;
            }
        }
        Ok(())
    }

    // Carries out a load.
    pub(crate) fn load<R: Wait>(&mut self, rt: &R, alloc: Global, call: &LoadCall) -> Acted<J>
        ensures done { (reply : Reply) (note : List Standing) → result ≡ acted.Done reply note
            → LoadShows (load_planned self.old.standing call.now) reply note self.old self.new
            (K.held self.old.keeper) (K.held self.new.keeper) }
        ensures failed { result ≡ acted.Failed → Rose (K.faults self.old.keeper) (K.faults self.new.keeper)
            × Rests self.old self.new (K.held self.old.keeper) (K.held self.new.keeper) }
        ensures memory { result ≡ acted.NoMemory → Rests self.old self.new (K.held self.old.keeper) (K.held self.new.keeper) }
        ensures counts { K.faults self.old.keeper ≤ K.faults self.new.keeper }
    {
        match self.office.plan_load(alloc, call) {
            Ok(LoadPlan::Kept(reply)) => self.settle(rt, Ok(reply)),
            Ok(LoadPlan::New(pending)) => self.commit(rt, alloc, pending),
            Err(LoadFault::NoMemory) => Acted::NoMemory,
            Err(fault) => self.settle(rt, reply_load_refusal(alloc, &fault)),
        }
    }

    // Carries out a check.
    pub(crate) fn check<R: Wait>(
        &mut self,
        rt: &R,
        alloc: Global,
        user: &Text,
        now: i64,
    ) -> Acted<J>
        requires { IsMomentInYears now }
        ensures done { (reply : Reply) (note : List Standing) → result ≡ acted.Done reply note
            → CheckShows (check_planned self.old.standing user.now now) reply note self.old self.new
            (K.held self.old.keeper) (K.held self.new.keeper) }
        ensures failed { result ≡ acted.Failed → Rose (K.faults self.old.keeper) (K.faults self.new.keeper)
            × Rests self.old self.new (K.held self.old.keeper) (K.held self.new.keeper) }
        ensures memory { result ≡ acted.NoMemory → Rests self.old self.new (K.held self.old.keeper) (K.held self.new.keeper) }
        ensures counts { K.faults self.old.keeper ≤ K.faults self.new.keeper }
    {
        match self.office.plan_check(alloc, user, now) {
            Ok(CheckPlan::Nothing(reply)) => self.settle(rt, Ok(reply)),
            Ok(CheckPlan::New(pending)) => self.commit(rt, alloc, pending),
            Err(fault) => self.settle(rt, refuse_check(alloc, &fault)),
        }
    }

    // Gives the reply to what changes nothing, and publishes the present edition once more, so that there is a note.
    fn settle<R: Wait>(&mut self, rt: &R, reply: Result<Reply, NoMemory>) -> Acted<J>
        ensures done { (given : Reply) (note : List Standing) → result ≡ acted.Done given note
            → IfOk reply (λ reply. Publishes (unchanged self.old.standing reply) given note self.old self.new
            (K.held self.old.keeper) (K.held self.new.keeper)) × (is_ok reply ≡ true) }
        ensures failed { result ≡ acted.Failed → ⊥ }
        ensures memory { result ≡ acted.NoMemory → Rests self.old self.new (K.held self.old.keeper) (K.held self.new.keeper) }
        ensures counts { K.faults self.old.keeper ≤ K.faults self.new.keeper }
    {
        let Ok(reply) = reply else {
            return Acted::NoMemory;
        };
        match self.repeat(rt) {
            Ok(note) => Acted::Done(reply, note),
            Err(NoMemory) => Acted::NoMemory,
        }
    }

    // Offers the edition of a load or a check that was planned, has it saved, and publishes it. All memory but the store's own is
    // taken before the store is called.
    fn commit<R: Wait>(&mut self, rt: &R, alloc: Global, pending: Pending) -> Acted<J>
        requires { IsPlanned self.old.standing pending }
        ensures done { (reply : Reply) (note : List Standing) → result ≡ acted.Done reply note
            → Publishes (carried_out pending) reply note self.old self.new (K.held self.old.keeper) (K.held self.new.keeper) }
        ensures failed { result ≡ acted.Failed → Rose (K.faults self.old.keeper) (K.faults self.new.keeper)
            × Rests self.old self.new (K.held self.old.keeper) (K.held self.new.keeper) }
        ensures memory { result ≡ acted.NoMemory → Rests self.old self.new (K.held self.old.keeper) (K.held self.new.keeper) }
        ensures counts { K.faults self.old.keeper ≤ K.faults self.new.keeper }
    {
        let Ok(edition) = pending.edition() else {
            return Acted::NoMemory;
        };
        let Ok(()) = self.publisher.offer(edition) else {
            return Acted::NoMemory;
        };
        match self.office.commit(alloc, pending) {
            Ok(reply) => Acted::Done(reply, self.publisher.publish(rt)),
            Err(KeepFault::Failed) => Acted::Failed,
            Err(KeepFault::NoMemory) => Acted::NoMemory,
        }
    }
}

// The reply to a check that is refused; want of memory is none.
fn refuse_check(alloc: Global, fault: &CheckFault) -> Result<Reply, NoMemory>
    ensures { IfOk result (λ reply. (is_no_memory fault.now ≡ false) × (reply ≡ check_refusal fault.now)) }
{
    match fault {
        CheckFault::NoMemory => Err(NoMemory),
        fault => reply_check_refusal(alloc, fault),
    }
}
