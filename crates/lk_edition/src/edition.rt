ghost use Rattle.std.specs.Prelude.{◌≡◌, ◌+◌, ◌++◌, ◌∷◌, [], IfOk, false, map, option_map};
ghost use Rattle.std.specs.Arc.{arc_value};
ghost use Rattle.lk_fill.specs.Orders.{IsDeriveOrder};
ghost use Rattle.lk_route.specs.Ready.{IsReadyFor};
ghost use Rattle.lk_state.specs.Limits.{is_over};
ghost use Rattle.lk_state.specs.States.{AreTables, sources_at};
ghost use Rattle.lk_edition.specs.Editions.{standing_of, standing_with, state_of};
ghost use Rattle.lk_edition.specs.Loads.{kept_load};
ghost use Rattle.lk_edition.specs.Standings.{IsStanding};

use lk_keeps::Keeps;
use lk_ledger::KeptId;
use lk_route::Ready;
use lk_schema::Users;
use lk_table::{StoredTables, TableSet, TableVersion, share_tables};
use lk_trigger::Build;
use lk_types::Model as Project;
use lk_val::{Items, NoMemory, Text};
use std::alloc::Global;
use std::marker::Model;
use std::sync::Arc;

// What all editions of a server have.
#[derive(Drop)]
pub(crate) struct Base {
    pub(crate) model: Project,
    pub(crate) users: Users,
    // An order in which the derived tables can be made.
    pub(crate) order: Items<u32>,
    // What is asked of the aggregate tables and the derived tables whenever a query is routed.
    pub(crate) ready: Ready,
}

// When each datagroup was built last, and what is kept of the builds: editions share it until a check builds anew.
#[derive(Drop)]
pub(crate) struct Made {
    pub(crate) builds: Items<Build>,
    pub(crate) keeps: Keeps,
}

/// The server's tables at a snapshot, with its model, its users and what is kept of the builds of datagroups. Readers share it.
/// (lookd)
#[derive(Drop)]
pub struct Edition {
    base: Arc<Base>,
    number: u64,
    // What each table of the schema holds, by number.
    tables: Items<TableVersion>,
    // The same tables as a query sees them.
    set: TableSet,
    // The loads that are kept, in order.
    loads: Items<Arc<KeptId>>,
    made: Arc<Made>,
}

impl Model for Edition {
    ghost use Rattle.std.specs.Prelude.{map};
    ghost use Rattle.std.specs.Arc.{arc_value};
    ghost use Rattle.lk_edition.specs.Editions.{IsEdition, standing_of, state_of};
    ghost use Rattle.lk_edition.specs.Standings.{Standing};

    ghost Value = { Standing };

    ghost use Rattle.std.specs.Coded.{codes};
    ghost use Rattle.lk_types.specs.FormulaCode.{coded_formula};
    ghost use Rattle.lk_types.specs.CalculationCode.{coded_calculation};

    ghost coded = { Prim.hlevel (codes, coded_formula, coded_calculation) };

    ghost view = { λ edition. standing_of (arc_value edition.base)
        (state_of edition.number edition.tables (map arc_value edition.loads)) (arc_value edition.made) };

    ghost invariant = { λ edition. IsEdition (arc_value edition.base)
        (state_of edition.number edition.tables (map arc_value edition.loads)) (arc_value edition.made) edition.set };
}

impl Edition {
    // The edition of these parts.
    pub(crate) fn new(
        alloc: Global,
        base: Arc<Base>,
        number: u64,
        tables: Items<TableVersion>,
        loads: Items<Arc<KeptId>>,
        made: Arc<Made>,
    ) -> Result<Edition, NoMemory>
        requires stands { IsStanding (standing_of (arc_value base) (state_of number tables (map arc_value loads)) (arc_value made)) }
        requires order { IsDeriveOrder (arc_value base).model (arc_value base).order }
        requires ready { IsReadyFor (arc_value base).model (arc_value base).ready }
        ensures { IfOk result (λ edition.
            edition ≡ standing_of (arc_value base) (state_of number tables (map arc_value loads)) (arc_value made)) }
    {
        let shared = share_tables(alloc, tables.as_slice())?;
        Ok(Edition {
            base,
            number,
            tables,
            set: TableSet::new(StoredTables::new(shared), Items::new(alloc)),
            loads,
            made,
        })
    }

    /// What always holds of an edition: its model is resolved, its tables are those of the schema, within the limits, and each
    /// datagroup has a build, of which it keeps what valid tables gave. A law: it computes nothing.
    pub fn stands(&self)
        ensures { IsStanding self.now }
    {
        let _ = &self.base;
    }

    /// The snapshot's number.
    pub fn number(&self) -> u64
        ensures { result ≡ self.now.state.number }
    {
        self.number
    }

    /// The model.
    pub fn model(&self) -> &Project
        ensures { result.now ≡ self.now.model }
    {
        &self.base.model
    }

    /// The users.
    pub fn users(&self) -> &Users
        ensures { result.now ≡ self.now.users }
    {
        &self.base.users
    }

    /// The tables as a query sees them.
    pub fn set(&self) -> &TableSet
        ensures { result.now ≡ sources_at self.now.state }
    {
        &self.set
    }

    /// When each datagroup was built last, by number.
    pub fn builds(&self) -> &[Build]
        ensures { result.now ≡ self.now.builds }
    {
        self.made.builds.as_slice()
    }

    /// What is kept of the builds.
    pub fn keeps(&self) -> &Keeps
        ensures { result.now ≡ self.now.keeps }
    {
        &self.made.keeps
    }

    /// An order in which the derived tables can be made.
    pub fn order(&self) -> &[u32]
        ensures { IsDeriveOrder self.now.model result.now }
    {
        self.base.order.as_slice()
    }

    /// What is asked of the aggregate tables and the derived tables whenever a query is routed.
    pub fn ready(&self) -> &Ready
        ensures { IsReadyFor self.now.model result.now }
    {
        &self.base.ready
    }

    /// What each table of the schema holds, by number.
    pub fn tables(&self) -> &[TableVersion]
        ensures tables { result.now ≡ self.now.state.tables }
        ensures are { AreTables self.now.model.schema.tables self.now.state.tables }
    {
        self.tables.as_slice()
    }

    // The number of the next state.
    pub(crate) fn next_number(&self) -> u64
        ensures { result ≡ self.now.state.number + 1 }
    {
        self.number + 1
    }

    // The kept load of an id.
    pub(crate) fn kept_load(&self, id: &Text) -> Option<&KeptId>
        ensures { option_map (λ load. load.now) result ≡ kept_load self.now.state.ids id.now }
    {
        find_load(self.loads.as_slice(), id)
    }

    // The loads that are kept, and one behind them.
    pub(crate) fn loads_with(
        &self,
        alloc: Global,
        load: KeptId,
    ) -> Result<Items<Arc<KeptId>>, NoMemory>
        ensures { IfOk result (λ loads. map arc_value loads ≡ self.now.state.ids ++ load ∷ []) }
    {
        let mut loads = share_loads(alloc, self.loads.as_slice())?;
        loads.push(Arc::new(alloc, load)?)?;
        Ok(loads)
    }

    // The edition of the same model, users and builds over other parts.
    pub(crate) fn next(
        &self,
        alloc: Global,
        number: u64,
        tables: Items<TableVersion>,
        loads: Items<Arc<KeptId>>,
    ) -> Result<Edition, NoMemory>
        requires tables { AreTables self.now.model.schema.tables tables }
        requires small { is_over (state_of number tables (map arc_value loads)) ≡ false }
        ensures { IfOk result (λ edition. edition ≡ record {
          model = self.now.model;
          users = self.now.users;
          state = state_of number tables (map arc_value loads);
          builds = self.now.builds;
          keeps = self.now.keeps;
        }) }
    {
        let base = Arc::try_clone(&self.base)?;
        let made = Arc::try_clone(&self.made)?;
        Edition::new(alloc, base, number, tables, loads, made)
    }

    // The edition of the next number over the same tables and loads, where this was built.
    pub(crate) fn next_made(&self, alloc: Global, made: Arc<Made>) -> Result<Edition, NoMemory>
        requires { IsStanding (standing_with self.now (arc_value made)) }
        ensures { IfOk result (λ edition. edition ≡ standing_with self.now (arc_value made)) }
    {
        let base = Arc::try_clone(&self.base)?;
        let tables = share_tables(alloc, self.tables.as_slice())?;
        let loads = share_loads(alloc, self.loads.as_slice())?;
        Edition::new(alloc, base, self.next_number(), tables, loads, made)
    }
}

fn find_load<'a>(loads: &'a [Arc<KeptId>], id: &Text) -> Option<&'a KeptId>
    ensures { option_map (λ load. load.now) result ≡ kept_load (map arc_value loads.now) id.now }
{
    for load in loads {
        if load.id == *id {
            return Some(&**load);
        }
    }
    None
}

// The loads once more, shared.
fn share_loads(alloc: Global, loads: &[Arc<KeptId>]) -> Result<Items<Arc<KeptId>>, NoMemory>
    ensures { IfOk result (λ shared. map arc_value shared ≡ map arc_value loads.now) }
{
    let mut shared = Items::new(alloc);
    for load in loads {
        shared.push(Arc::try_clone(load)?)?;
    }
    Ok(shared)
}

// Takes types whose values may be handed to other threads and shared by them.
fn are_shared<T: Send + Sync>() {}

/// An edition may be handed to other threads and shared by them, alone or in an `Arc`: that is what the types of this body say.
/// It computes nothing. (lookd)
pub fn editions_are_shared() {
    are_shared::<Edition>();
    are_shared::<Arc<Edition>>();
}
