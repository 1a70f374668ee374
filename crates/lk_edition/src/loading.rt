ghost use Rattle.std.specs.Prelude.{◌≡◌, ◌<◌, Err, IfErr, IfOk, IsOkAnd, List, false, length, map, slice_set};
ghost use Rattle.std.specs.Arc.{arc_value};
ghost use Rattle.lk_val.specs.Memory.{IsUnlessMemory, Unless};
ghost use Rattle.lk_load.specs.Loading.{IsTable, table_loaded};
ghost use Rattle.lk_ledger.specs.Saving.{load};
ghost use Rattle.lk_ledger.specs.declared.kept.KeptId.{KeptId};
ghost use Rattle.lk_state.specs.Limits.{is_over};
ghost use Rattle.lk_state.specs.States.{AreTables};
ghost use Rattle.lk_state.specs.Tables.{content_at, def_at, table_named};
ghost use Rattle.lk_edition.specs.Loads.{is_loader, is_no_memory, kept_load, load_fault, load_planned, over_batch, planned, state_after, state_with, unless_kept, unless_over};

use crate::call::LoadCall;
use crate::edition::Edition;
use crate::plan::{LoadPlan, Pending, ToSave};
use lk_command_reply::{LoadFault, load_reply};
use lk_ledger::{Command, KeptId};
use lk_load::LoadedBatch;
use lk_schema::{Users, attribute_of};
use lk_state::{compacted, is_over, load_into, set_table, table_named};
use lk_table::{BatchFault, TableVersion, share_tables};
use lk_types::Reply;
use lk_val::{Items, NoMemory, Text};
use std::alloc::Global;
use std::sync::Arc;

/// What a load comes to on an edition.
pub(crate) fn plan_load(
    alloc: Global,
    edition: &Edition,
    call: &LoadCall,
) -> Result<LoadPlan, LoadFault>
    ensures { IsUnlessMemory is_no_memory result (load_planned edition.now call.now) }
{
    if !is_loader(alloc, edition.users(), &call.user)? {
        return Err(LoadFault::L1(call.user.copy(alloc)?));
    }
    match table_named(edition.model().schema.tables.as_slice(), &call.table) {
        Some(number) => unless_kept(alloc, edition, call, number),
        None => Err(LoadFault::L2(call.table.copy(alloc)?)),
    }
}

/// Whether a user may load and check.
pub(crate) fn is_loader(alloc: Global, users: &Users, user: &Text) -> Result<bool, NoMemory>
    ensures { IfOk result (λ is. is ≡ is_loader users.now user.now) }
{
    let loader = Text::from_str(alloc, "loader")?;
    Ok(attribute_of(users, user, &loader).is_some())
}

// Into the table of a number: a load that is kept gets its reply again.
fn unless_kept(
    alloc: Global,
    edition: &Edition,
    call: &LoadCall,
    number: usize,
) -> Result<LoadPlan, LoadFault>
    requires { number < length edition.now.model.schema.tables }
    ensures { IsUnlessMemory is_no_memory result
        (unless_kept edition.now call.now number (kept_load edition.now.state.ids call.now.id)) }
{
    match edition.kept_load(&call.id) {
        Some(load) => Ok(LoadPlan::Kept(load_reply(alloc, load.rows, load.number)?)),
        None => load_batch(alloc, edition, call, number),
    }
}

fn load_batch(
    alloc: Global,
    edition: &Edition,
    call: &LoadCall,
    number: usize,
) -> Result<LoadPlan, LoadFault>
    requires { number < length edition.now.model.schema.tables }
    ensures { IsUnlessMemory is_no_memory result (over_batch edition.now call.now number
        (table_loaded (def_at edition.now.model.schema.tables number) (content_at edition.now.state.tables number).rows
        call.now.body call.now.replace)) }
{
    let defs = edition.model().schema.tables.as_slice();
    let loaded = load_into(
        alloc,
        defs,
        edition.tables(),
        number,
        call.body.as_slice(),
        call.replace,
    );
    match loaded {
        Ok(loaded) => plan_loaded(alloc, edition, call, number, loaded),
        Err(fault) => Err(load_fault(fault)),
    }
}

// The refusal of a load for its batch.
fn load_fault(fault: BatchFault) -> LoadFault
    ensures { result ≡ load_fault fault }
{
    match fault {
        BatchFault::L3 { row, column } => LoadFault::L3 { row, column },
        BatchFault::L4(key) => LoadFault::L4(key),
        BatchFault::L5(row) => LoadFault::L5(row),
        BatchFault::NoMemory => LoadFault::NoMemory,
    }
}

// The plan of a load whose batch is read, unless it leads over a limit.
fn plan_loaded(
    alloc: Global,
    edition: &Edition,
    call: &LoadCall,
    number: usize,
    loaded: LoadedBatch<'_>,
) -> Result<LoadPlan, LoadFault>
    requires within { number < length edition.now.model.schema.tables }
    requires table { IsTable (def_at edition.now.model.schema.tables number) loaded.version }
    ensures { IsUnlessMemory is_no_memory result (unless_over (planned edition.now call.now number loaded.entry)) }
{
    let loads = loads_within(alloc, edition, call, number, &loaded)?;
    Ok(LoadPlan::New(pending_of(alloc, edition, call, number, loaded, loads)?))
}

// The loads that are kept after a load, unless it leads over a limit.
fn loads_within(
    alloc: Global,
    edition: &Edition,
    call: &LoadCall,
    number: usize,
    loaded: &LoadedBatch<'_>,
) -> Result<Items<Arc<KeptId>>, LoadFault>
    requires within { number < length edition.now.model.schema.tables }
    requires table { IsTable (def_at edition.now.model.schema.tables number) loaded.now.version }
    ensures loads { IfOk result (λ loads. map arc_value loads ≡ (state_after edition.now.state call.now number loaded.now).ids) }
    ensures small { IfOk result (λ loads.
        is_over (state_with edition.now.state number loaded.now.version (map arc_value loads)) ≡ false) }
    ensures err { IfErr result (λ why. Unless (is_no_memory why)
        (Err why ≡ unless_over (planned edition.now call.now number loaded.now))) }
{
    let load = kept_id(alloc, call, edition.next_number(), u64::from(loaded.rows()))?;
    let loads = edition.loads_with(alloc, load)?;
    // A small body may come to very many cells: the limits are asked before its text is written or any row is copied.
    if leads_over(alloc, edition, number, loaded.version(), loads.len())? {
        return Err(LoadFault::L6);
    }
    Ok(loads)
}

// Whether the next state is over a limit, with another version of a table and so many kept loads.
fn leads_over(
    alloc: Global,
    edition: &Edition,
    number: usize,
    version: &TableVersion,
    loads: usize,
) -> Result<bool, NoMemory>
    requires within { number < length edition.now.model.schema.tables }
    requires table { IsTable (def_at edition.now.model.schema.tables number) version.now }
    ensures { IfOk result (λ over. (ids : List KeptId) → length ids ≡ loads
        → over ≡ is_over (state_with edition.now.state number version.now ids)) }
{
    let tables = tables_with(alloc, edition, number, version.share(alloc)?)?;
    Ok(is_over(edition.next_number(), tables.as_slice(), loads))
}

// The plan of a load that leads to these kept loads, over no limit.
fn pending_of(
    alloc: Global,
    edition: &Edition,
    call: &LoadCall,
    number: usize,
    loaded: LoadedBatch<'_>,
    loads: Items<Arc<KeptId>>,
) -> Result<Pending, NoMemory>
    requires within { number < length edition.now.model.schema.tables }
    requires table { IsTable (def_at edition.now.model.schema.tables number) loaded.version }
    requires loads { map arc_value loads ≡ (state_after edition.now.state call.now number loaded).ids }
    requires small { is_over (state_with edition.now.state number loaded.version (map arc_value loads)) ≡ false }
    ensures { IfOk result (λ pending. pending ≡ planned edition.now call.now number loaded.entry) }
{
    let next = edition.next_number();
    let reply = load_reply(alloc, u64::from(loaded.rows()), next);
    let command = command_of(alloc, call, next, &loaded);
    let next_edition = edition_with(alloc, edition, number, loaded.into_version(), loads);
    pending(next_edition, command, reply)
}

// The plan of these parts, if they were made.
fn pending(
    edition: Result<Arc<Edition>, NoMemory>,
    command: Result<Command, NoMemory>,
    reply: Result<Reply, NoMemory>,
) -> Result<Pending, NoMemory>
    ensures { IfOk result (λ pending. IsOkAnd edition (λ next. IsOkAnd command (λ told. IsOkAnd reply (λ answer.
        pending ≡ record { standing = arc_value next; save = load told; reply = answer })))) }
{
    let edition = edition?;
    let command = command?;
    Ok(Pending {
        edition,
        save: ToSave::Load(command),
        reply: reply?,
    })
}

// The edition of the next state.
fn edition_with(
    alloc: Global,
    edition: &Edition,
    number: usize,
    version: TableVersion,
    loads: Items<Arc<KeptId>>,
) -> Result<Arc<Edition>, NoMemory>
    requires within { number < length edition.now.model.schema.tables }
    requires table { IsTable (def_at edition.now.model.schema.tables number) version }
    requires small { is_over (state_with edition.now.state number version (map arc_value loads)) ≡ false }
    ensures { IfOk result (λ next. arc_value next ≡ record {
      model = edition.now.model;
      users = edition.now.users;
      state = state_with edition.now.state number version (map arc_value loads);
      builds = edition.now.builds;
      keeps = edition.now.keeps;
    }) }
{
    let version = compacted(alloc, version)?;
    let tables = tables_with(alloc, edition, number, version)?;
    let next = edition.next(alloc, edition.next_number(), tables, loads)?;
    Ok(Arc::new(alloc, next)?)
}

// What the store is told of a load that makes the state of this number.
fn command_of(
    alloc: Global,
    call: &LoadCall,
    number: u64,
    loaded: &LoadedBatch<'_>,
) -> Result<Command, NoMemory>
    ensures { IfOk result (λ command. command ≡ record {
      number = number;
      id = call.now.id;
      table = call.now.table;
      replace = call.now.replace;
      rows = loaded.now.rows;
      body = loaded.now.text;
    }) }
{
    Ok(Command {
        number,
        id: call.id.copy(alloc)?,
        table: call.table.copy(alloc)?,
        replace: call.replace,
        rows: u64::from(loaded.rows()),
        body: loaded.text(alloc)?,
    })
}

// The tables of an edition with another version of one of them.
fn tables_with(
    alloc: Global,
    edition: &Edition,
    number: usize,
    version: TableVersion,
) -> Result<Items<TableVersion>, NoMemory>
    requires within { number < length edition.now.model.schema.tables }
    requires table { IsTable (def_at edition.now.model.schema.tables number) version }
    ensures set { IfOk result (λ tables. tables ≡ slice_set edition.now.state.tables number version) }
    ensures are { IfOk result (AreTables edition.now.model.schema.tables) }
{
    let tables = share_tables(alloc, edition.tables())?;
    Ok(set_table(
        edition.model().schema.tables.as_slice(),
        tables,
        number,
        version,
    ))
}

fn kept_id(alloc: Global, call: &LoadCall, number: u64, rows: u64) -> Result<KeptId, NoMemory>
    ensures { IfOk result (λ load. load ≡ record { id = call.now.id; number = number; rows = rows }) }
{
    Ok(KeptId {
        id: call.id.copy(alloc)?,
        number,
        rows,
    })
}
