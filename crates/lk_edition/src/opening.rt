ghost use Rattle.std.specs.Prelude.{◌≡◌, Err, IfErr, IfOk, List, Ok, length, map, true};
ghost use Rattle.std.specs.Arc.{arc_value};
ghost use Rattle.std.specs.List.{All};
ghost use Rattle.lk_val.specs.Memory.{IsUnlessMemory, Unless};
ghost use Rattle.lk_val.specs.Years.{IsMomentInYears};
ghost use Rattle.lk_types.specs.Tables.{are_valid_tables};
ghost use Rattle.lk_semantics.specs.Resolved.{IsResolved};
ghost use Rattle.lk_table.specs.Contents.{rows_of_each};
ghost use Rattle.lk_trigger.specs.Builds.{built_at};
ghost use Rattle.lk_fill.specs.Orders.{IsDeriveOrder};
ghost use Rattle.lk_route.specs.Ready.{IsReadyFor};
ghost use Rattle.lk_keeps.specs.Anew.{all_kept};
ghost use Rattle.lk_keeps.specs.Keeps.{AreKept};
ghost use Rattle.lk_ledger.specs.declared.kept.KeptId.{KeptId};
ghost use Rattle.lk_state.specs.Openings.{AreSeeds, is_no_memory};
ghost use Rattle.lk_state.specs.declared.fault.OpenFault.TheVariants as fault;
ghost use Rattle.lk_edition.specs.Editions.{standing_of, state_of};
ghost use Rattle.lk_edition.specs.Openings.{standing_built, standing_opened};

use crate::edition::{Base, Edition, Made};
use lk_fill::derive_order;
use lk_keeps::keep_all;
use lk_ledger::Kept;
use lk_rollup::BuildFault;
use lk_route::Ready;
use lk_schema::Users;
use lk_state::{OpenFault, loads_of, tables_over};
use lk_table::TableVersion;
use lk_trigger::{Build, built};
use lk_types::{Datagroup, Model};
use lk_val::{Bytes, Items, NoMemory};
use std::alloc::Global;
use std::sync::Arc;

impl Edition {
    /// The edition over what a store kept: its batches in their order, and then each seed, a batch in place of the rows of the
    /// table of a number. It has the number of the last save. The faults are those of the definition; none is the store's.
    /// All datagroups are built over its tables at the moment. (lookd)
    pub fn open(
        alloc: Global,
        model: Model,
        users: Users,
        kept: Kept,
        seeds: &[(u32, Bytes)],
        now: i64,
    ) -> Result<Edition, OpenFault>
        requires model { IsResolved model }
        requires seeds { AreSeeds model.schema.tables seeds.now }
        requires years { IsMomentInYears now }
        ensures value { IsUnlessMemory is_no_memory result (standing_opened model users kept seeds.now now) }
        ensures number { IfOk result (λ edition. edition.state.number ≡ kept.number) }
        ensures never { IfErr result (λ why. why ≡ fault.Store → ⊥) }
    {
        let base = base_of(alloc, model, users)?;
        edition_over(alloc, base, kept, seeds, now)
    }
}

// The model and the users, with an order in which the derived tables can be made, and what is asked whenever a query is routed.
fn base_of(alloc: Global, model: Model, users: Users) -> Result<Arc<Base>, NoMemory>
    requires { IsResolved model }
    ensures model { IfOk result (λ base. (arc_value base).model ≡ model) }
    ensures users { IfOk result (λ base. (arc_value base).users ≡ users) }
    ensures order { IfOk result (λ base. IsDeriveOrder (arc_value base).model (arc_value base).order) }
    ensures ready { IfOk result (λ base. IsReadyFor (arc_value base).model (arc_value base).ready) }
{
    let order = derive_order(alloc, &model)?;
    let ready = Ready::new(alloc, &model)?;
    let base = Base {
        model,
        users,
        order,
        ready,
    };
    Ok(Arc::new(alloc, base)?)
}

fn edition_over(
    alloc: Global,
    base: Arc<Base>,
    kept: Kept,
    seeds: &[(u32, Bytes)],
    now: i64,
) -> Result<Edition, OpenFault>
    requires model { IsResolved (arc_value base).model }
    requires order { IsDeriveOrder (arc_value base).model (arc_value base).order }
    requires ready { IsReadyFor (arc_value base).model (arc_value base).ready }
    requires seeds { AreSeeds (arc_value base).model.schema.tables seeds.now }
    requires years { IsMomentInYears now }
    ensures value { IsUnlessMemory is_no_memory result
        (standing_opened (arc_value base).model (arc_value base).users kept seeds.now now) }
    ensures number { IfOk result (λ edition. edition.state.number ≡ kept.number) }
    ensures never { IfErr result (λ why. why ≡ fault.Store → ⊥) }
{
    let tables = tables_over(alloc, base.model.schema.tables.as_slice(), &kept, seeds)?;
    let made = made_over(alloc, &*base, tables.as_slice(), kept.number, now)?;
    let number = kept.number;
    let loads = loads_of(alloc, kept)?;
    Ok(Edition::new(alloc, base, number, tables, loads, made)?)
}

// All datagroups, built over the tables of the state of a number at a moment.
fn made_over(
    alloc: Global,
    base: &Base,
    tables: &[TableVersion],
    number: u64,
    now: i64,
) -> Result<Arc<Made>, OpenFault>
    requires model { IsResolved base.now.model }
    requires order { IsDeriveOrder base.now.model base.now.order }
    requires tables { are_valid_tables base.now.model.schema.tables (rows_of_each tables.now) ≡ true }
    requires years { IsMomentInYears now }
    ensures ok { IfOk result (λ made. (ids : List KeptId)
        → standing_built base.now.model base.now.users (state_of number tables.now ids) now
        (all_kept base.now.model (rows_of_each tables.now))
        ≡ Ok (standing_of base.now (state_of number tables.now ids) (arc_value made))) }
    ensures each { IfOk result (λ made. length (arc_value made).builds ≡ length base.now.model.datagroups) }
    ensures years { IfOk result (λ made. All (λ build. IsMomentInYears build.moment) (arc_value made).builds) }
    ensures kept { IfOk result (λ made. AreKept base.now.model (arc_value made).keeps) }
    ensures err { IfErr result (λ why. Unless (is_no_memory why) ((ids : List KeptId) → Err why
        ≡ standing_built base.now.model base.now.users (state_of number tables.now ids) now
        (all_kept base.now.model (rows_of_each tables.now)))) }
    ensures never { IfErr result (λ why. why ≡ fault.Store → ⊥) }
{
    let builds = all_built(alloc, base.model.datagroups.as_slice(), tables, number, now)?;
    match keep_all(alloc, &base.model, base.order.as_slice(), tables) {
        Ok(keeps) => Ok(Arc::new(alloc, Made { builds, keeps })?),
        Err(BuildFault::G2(name)) => Err(OpenFault::Large(name)),
        Err(BuildFault::NoMemory) => Err(OpenFault::NoMemory),
    }
}

// Each datagroup as it is built over the tables of the state of a number.
fn all_built(
    alloc: Global,
    datagroups: &[Datagroup],
    tables: &[TableVersion],
    number: u64,
    now: i64,
) -> Result<Items<Build>, NoMemory>
    requires { IsMomentInYears now }
    ensures { IfOk result (λ builds. builds ≡ map (built_at (rows_of_each tables.now) number now) datagroups.now) }
{
    let mut builds = Items::new(alloc);
    for datagroup in datagroups {
        builds.push(built(alloc, datagroup, tables, number, now)?)?;
    }
    Ok(builds)
}
