ghost use Rattle.std.specs.Prelude.{◌≡◌, ◌<◌, ◌≤◌, List, [], Err, IfErr, IfOk, IfSome, Ok, OnOk, length};
ghost use Rattle.std.specs.List.{All};
ghost use Rattle.std.specs.Option.{option_map};
ghost use Rattle.lk_io.specs.Causes.{Rose};
ghost use Rattle.lk_io.specs.Moments.{later};
ghost use Rattle.lk_val.specs.Years.{IsMomentInYears};
ghost use Rattle.lk_val.specs.declared.fault.ModelFault.TheVariants as model;
ghost use Rattle.lk_types.specs.Printing.{value_text};
ghost use Rattle.lk_semantics.specs.Resolved.{IsResolved};
ghost use Rattle.lk_include.specs.Gathering.{file_line};
ghost use Rattle.lk_seed.specs.Seeds.{Seed, seeds_of};
ghost use Rattle.lk_state.specs.Openings.{AreSeeds};
ghost use Rattle.lk_state.specs.declared.fault.OpenFault.{OpenFault};
ghost use Rattle.lk_edition.specs.Histories.{Stands};
ghost use Rattle.lk_edition.specs.Offices.{Begins, IsOpening, standing_in};
ghost use Rattle.lk_session.specs.Servers.{keeper_in};
ghost use Rattle.lk_serve.specs.Opened.{IsOpenedBy, IsOpenedNextBy, Opens, batches_of, numbered, open_fault, open_line, unread_fault, unread_line};
ghost use Rattle.lk_serve.specs.Openings.{HasProjectBy, HasWhyCause, IsFaulty, IsLineBy, IsProjectBy, IsUnservedBy, IsWhy, OpensNot, ProjectNot, TellsFault, with_seed};
ghost use Rattle.lk_serve.specs.Runs.{IsAskedOnce, next_moment};
ghost use Rattle.lk_serve.specs.declared.opening.DataFiles.{DataFiles};
ghost use Rattle.lk_serve.specs.declared.opening.Why.{Why};

use crate::replies::{Reply, fault_found};
use lk_edition::{Office, Unopened, openings_begin_a_history};
use lk_include::ProjectFault;
use lk_io::{Clock, Files};
use lk_ledger::Keeper;
use lk_resolve::{Loaded, load};
use lk_seed::{read_seeds, seed_fault};
use lk_state::OpenFault;
use lk_table::BatchFault;
use lk_types::{Shape, print_cell};
use lk_val::{Bytes, Cell, FaultLine, Items, ModelFault, NoMemory, Text, Value};
use std::alloc::Global;

/// Whether an opening puts the batches of a project's data files in place of the rows of their tables.
#[derive(Clone, Copy)]
pub enum DataFiles {
    /// For a query or the requests of an input, over an empty store.
    Read,
    /// For connections, over the store in the folder: their tables hold what was loaded, and nothing else.
    Unread,
}

/// Why a project did not open.
#[derive(Drop)]
pub enum Why {
    /// The line on it.
    Told(Reply),
    /// The store's count of faults rose.
    Store,
    /// The files' count of faults rose.
    Files,
    /// Want of memory.
    Memory,
}

impl From<NoMemory> for Why {
    ghost use Rattle.std.specs.Prelude.{◌≡◌};
    ghost use Rattle.lk_serve.specs.declared.opening.DataFiles.{DataFiles};
    ghost use Rattle.lk_serve.specs.declared.opening.Why.{Why};

    ghost from_gives = { λ _ why. why ≡ Why.Memory };

    fn from(_: NoMemory) -> Why {
        Why::Memory
    }
}

/// The server that a project opened with, and the moment at which it did.
#[derive(Drop)]
pub struct Opened<K> {
    pub office: Office<K>,
    pub now: i64,
}

/// Why a server did not open, and its store, handed back.
#[derive(Drop)]
pub struct Unserved<K> {
    pub why: Why,
    pub keeper: K,
}

// A project: its model and users, and the batches of its data files with the numbers of their tables.
struct Opening {
    loaded: Loaded,
    seeds: Vec<(u32, Bytes)>,
}

/// The server that a folder's project opens over a store, or why it does not: the first fault of the project, a data file that is
/// too big (P1), the first kept batch that does not read (O1), the first data file that does not read (L3, L5, L4), tables over a
/// limit (L6), or a build that is too large (G2). Data files that are not to be read are as if they were not there. The clock is
/// asked once, before the store is read, and not at all where the project's files open nothing. It changes neither the files nor
/// what the store holds. (lookd)
#[tactic(auto, using(crate::proofs::MomentLaws::next_is, crate::proofs::MomentLaws::unopened_next, crate::proofs::OpenedLaws::line_opens))]
pub fn open_office<F: Files, K: Keeper, C: Clock>(
    alloc: Global,
    reads: DataFiles,
    files: &mut F,
    keeper: K,
    clock: &mut C,
) -> Result<Opened<K>, Unserved<K>>
    ensures opened { IfSome (F.told files.old) (λ told. IfOk result (λ opened.
        IsOpenedBy reads told (Begins (K.held keeper) (K.handed keeper)) opened.now (Ok (standing_in opened.office)))) }
    ensures next { IfOk result (λ opened. IfSome (next_moment (C.moments clock.old)) (λ told. opened.now ≡ told)) }
    ensures years { IfOk result (λ opened. IsMomentInYears opened.now) }
    ensures unopened { IfSome (F.told files.old) (λ told. IfErr result (λ unserved.
        IsWhy (λ reply. IsOpenedNextBy reads told (Begins (K.held keeper) (K.handed keeper)) (next_moment (C.moments clock.old)) (Err reply)) unserved.why)) }
    ensures project { IfSome (F.told files.old) (λ told. IfErr result (λ unserved. unserved.why ≡ Why.Store → HasProjectBy reads told)) }
    ensures faulty { IfErr result (λ unserved. IsFaulty unserved.why) }
    ensures stands { IfOk result (λ opened. Stands (standing_in opened.office) []) }
    ensures kept_ok { IfOk result (λ opened. K.held (keeper_in opened.office) ≡ K.held keeper) }
    ensures kept_err { IfErr result (λ unserved. K.held unserved.keeper ≡ K.held keeper) }
    ensures cause_ok { IfOk result (λ opened. K.faults keeper ≤ K.faults (keeper_in opened.office)) }
    ensures cause_err { IfErr result (λ unserved. HasWhyCause (K.faults keeper) (K.faults unserved.keeper)
        (F.faults files.old) (F.faults files.new) unserved.why) }
    ensures asked { OnOk result (C.moments clock.new ≡ option_map later (C.moments clock.old)) }
    ensures once { IsAskedOnce (C.moments clock.old) (C.moments clock.new) }
    ensures later { F.faults files.old ≤ F.faults files.new }
    ensures same { F.told files.new ≡ F.told files.old }
{
    match read_project(alloc, reads, files) {
        Ok(opening) => {
            let now = clock.now();
            open_over(alloc, opening, keeper, now)
        }
        Err(why) => Err(Unserved { why, keeper }),
    }
}

fn open_over<K: Keeper>(
    alloc: Global,
    opening: Opening,
    keeper: K,
    now: i64,
) -> Result<Opened<K>, Unserved<K>>
    requires model { IsResolved opening.loaded.model }
    requires years { IsMomentInYears now }
    requires seeds { AreSeeds opening.loaded.model.schema.tables opening.seeds.items }
    ensures opened { IfOk result (λ opened. IsOpening opening.loaded.model opening.loaded.users (Begins (K.held keeper) (K.handed keeper))
        opening.seeds.items opened.now (Ok (standing_in opened.office))) }
    ensures moment { IfOk result (λ opened. opened.now ≡ now) }
    ensures unopened { IfErr result (λ unserved. IsWhy (λ reply. (fault : OpenFault) × Opens (open_line fault) reply
        × IsOpening opening.loaded.model opening.loaded.users (Begins (K.held keeper) (K.handed keeper)) opening.seeds.items now (Err fault)) unserved.why) }
    ensures faulty { IfErr result (λ unserved. IsFaulty unserved.why) }
    ensures stands { IfOk result (λ opened. Stands (standing_in opened.office) []) }
    ensures kept_ok { IfOk result (λ opened. K.held (keeper_in opened.office) ≡ K.held keeper) }
    ensures kept_err { IfErr result (λ unserved. K.held unserved.keeper ≡ K.held keeper) }
    ensures cause_ok { IfOk result (λ opened. K.faults keeper ≤ K.faults (keeper_in opened.office)) }
    ensures later { IfErr result (λ unserved. K.faults keeper ≤ K.faults unserved.keeper) }
    ensures cause { IfErr result (λ unserved. unserved.why ≡ Why.Store → Rose (K.faults keeper) (K.faults unserved.keeper)) }
    ensures never { IfErr result (λ unserved. unserved.why ≡ Why.Files → ⊥) }
{
    openings_begin_a_history();
    let Opening { loaded, seeds } = opening;
    let Loaded { model, users } = loaded;
    match Office::open(alloc, model, users, keeper, seeds.as_slice(), now) {
        Ok(office) => Ok(Opened { office, now }),
        Err(Unopened { fault, keeper }) => Err(Unserved {
            why: why_not(alloc, fault),
            keeper,
        }),
    }
}

// Why an office did not open.
fn why_not(alloc: Global, fault: OpenFault) -> Why
    ensures told { OpensNot fault result }
    ensures faulty { IsFaulty result }
{
    match fault {
        OpenFault::Store => Why::Store,
        OpenFault::NoMemory => Why::Memory,
        fault => match open_fault(alloc, fault) {
            Ok(fault) => tell(alloc, &fault),
            Err(NoMemory) => Why::Memory,
        },
    }
}

// The line of a fault.
fn tell(alloc: Global, fault: &ModelFault) -> Why
    ensures told { TellsFault fault.now result }
    ensures faulty { IsFaulty result }
{
    match fault {
        ModelFault::Fault(line) => match fault_found(alloc, line) {
            Ok(reply) => Why::Told(reply),
            Err(NoMemory) => Why::Memory,
        },
        ModelFault::NoMemory => Why::Memory,
    }
}

// The fault of an opening.
fn open_fault(alloc: Global, fault: OpenFault) -> Result<ModelFault, NoMemory>
    ensures { IfOk result (λ told. told ≡ open_fault fault) }
{
    match fault {
        OpenFault::Unread(table, fault) => unread_fault(alloc, table, fault),
        OpenFault::Seed(table, fault) => seed_fault(alloc, &table, fault),
        OpenFault::Full => limit_fault(alloc, "L6", Text::new(alloc)),
        OpenFault::Large(name) => limit_fault(alloc, "G2", name),
        OpenFault::Store | OpenFault::NoMemory => Ok(ModelFault::NoMemory),
    }
}

// The fault of a limit that the opening passes.
fn limit_fault(alloc: Global, code: &str, name: Text) -> Result<ModelFault, NoMemory>
    ensures { IfOk result (λ told. told ≡ model.Fault (file_line code.now [] 0 name)) }
{
    Ok(ModelFault::Fault(FaultLine {
        code: Text::from_str(alloc, code)?,
        path: Text::new(alloc),
        place: 0,
        name,
        other: Text::new(alloc),
    }))
}

// The fault of a kept batch, by its table.
fn unread_fault(alloc: Global, table: Text, fault: BatchFault) -> Result<ModelFault, NoMemory>
    ensures { IfOk result (λ told. told ≡ unread_fault table fault) }
{
    let line = match fault {
        BatchFault::L3 { row, column } => unread_line(alloc, table, row, "L3", column)?,
        BatchFault::L4(key) => unread_line(alloc, table, 0, "L4", printed(alloc, key)?)?,
        BatchFault::L5(row) => unread_line(alloc, table, row, "L5", Text::new(alloc))?,
        BatchFault::NoMemory => return Ok(ModelFault::NoMemory),
    };
    Ok(ModelFault::Fault(line))
}

fn unread_line(
    alloc: Global,
    table: Text,
    row: u32,
    code: &str,
    name: Text,
) -> Result<FaultLine, NoMemory>
    ensures { IfOk result (λ line. line ≡ unread_line table row code.now name) }
{
    Ok(FaultLine {
        code: Text::from_str(alloc, "O1")?,
        path: table,
        place: row,
        name: Text::from_str(alloc, code)?,
        other: name,
    })
}

fn printed(alloc: Global, key: Value) -> Result<Text, NoMemory>
    ensures { IfOk result (λ text. text ≡ value_text key) }
{
    print_cell(alloc, &Cell::Value(key), &Shape::Plain)
}

// The project of the files.
fn read_project<F: Files>(alloc: Global, reads: DataFiles, files: &mut F) -> Result<Opening, Why>
    ensures project { IfSome (F.told files.old) (λ told. IfOk result (λ opening. IsProjectBy reads told opening.loaded opening.seeds.items)) }
    ensures line { IfSome (F.told files.old) (λ told. IfErr result (IsWhy (IsLineBy reads told))) }
    ensures faulty { IfErr result IsFaulty }
    ensures resolved { IfOk result (λ opening. IsResolved opening.loaded.model) }
    ensures seeds { IfOk result (λ opening. AreSeeds opening.loaded.model.schema.tables opening.seeds.items) }
    ensures later { F.faults files.old ≤ F.faults files.new }
    ensures cause { IfErr result (λ why. why ≡ Why.Files → Rose (F.faults files.old) (F.faults files.new)) }
    ensures never { IfErr result (λ why. why ≡ Why.Store → ⊥) }
    ensures same { F.told files.new ≡ F.told files.old }
{
    match load(alloc, files) {
        Ok(loaded) => opening_of(alloc, reads, files, loaded),
        Err(fault) => Err(project_not(alloc, fault)),
    }
}

// Why the project's files open nothing.
fn project_not(alloc: Global, fault: ProjectFault) -> Why
    ensures told { ProjectNot fault result }
    ensures faulty { IsFaulty result }
{
    match fault {
        ProjectFault::Model(line) => match fault_found(alloc, &line) {
            Ok(reply) => Why::Told(reply),
            Err(NoMemory) => Why::Memory,
        },
        ProjectFault::Failed => Why::Files,
        ProjectFault::NoMemory => Why::Memory,
    }
}

// A project with the batches of its data files, where these are to be read.
fn opening_of<F: Files>(
    alloc: Global,
    reads: DataFiles,
    files: &mut F,
    loaded: Loaded,
) -> Result<Opening, Why>
    ensures loaded { IfOk result (λ opening. opening.loaded ≡ loaded) }
    ensures batches { IfSome (F.told files.old) (λ told. IfOk result (λ opening. (found : List Seed)
        × (Ok found ≡ batches_of reads loaded.model.schema.tables told) × (opening.seeds.items ≡ numbered 0 found))) }
    ensures line { IfSome (F.told files.old) (λ told. IfErr result (IsWhy (IsUnservedBy reads told (Ok loaded)))) }
    ensures faulty { IfErr result IsFaulty }
    ensures seeds { IfOk result (λ opening. AreSeeds loaded.model.schema.tables opening.seeds.items) }
    ensures later { F.faults files.old ≤ F.faults files.new }
    ensures cause { IfErr result (λ why. why ≡ Why.Files → Rose (F.faults files.old) (F.faults files.new)) }
    ensures never { IfErr result (λ why. why ≡ Why.Store → ⊥) }
    ensures same { F.told files.new ≡ F.told files.old }
{
    match reads {
        DataFiles::Read => read_batches(alloc, files, loaded),
        DataFiles::Unread => Ok(Opening {
            loaded,
            seeds: Vec::new(alloc),
        }),
    }
}

// The batches of a project's data files.
fn read_batches<F: Files>(alloc: Global, files: &mut F, loaded: Loaded) -> Result<Opening, Why>
    ensures loaded { IfOk result (λ opening. opening.loaded ≡ loaded) }
    ensures batches { IfSome (F.told files.old) (λ told. IfOk result (λ opening. (found : List Seed)
        × (Ok found ≡ seeds_of loaded.model.schema.tables told) × (opening.seeds.items ≡ numbered 0 found))) }
    ensures line { IfSome (F.told files.old) (λ told. IfErr result (IsWhy (IsUnservedBy DataFiles.Read told (Ok loaded)))) }
    ensures faulty { IfErr result IsFaulty }
    ensures seeds { IfOk result (λ opening. AreSeeds loaded.model.schema.tables opening.seeds.items) }
    ensures later { F.faults files.old ≤ F.faults files.new }
    ensures cause { IfErr result (λ why. why ≡ Why.Files → Rose (F.faults files.old) (F.faults files.new)) }
    ensures never { IfErr result (λ why. why ≡ Why.Store → ⊥) }
    ensures same { F.told files.new ≡ F.told files.old }
{
    match read_seeds(alloc, files, &loaded.model.schema) {
        Ok(seeds) => Ok(Opening {
            loaded,
            seeds: numbered(alloc, seeds)?,
        }),
        Err(fault) => Err(project_not(alloc, fault)),
    }
}

// The batches of tables, each with its table's number.
fn numbered(alloc: Global, seeds: Items<Option<Bytes>>) -> Result<Vec<(u32, Bytes)>, NoMemory>
    ensures is { IfOk result (λ given. given.items ≡ numbered 0 seeds) }
    ensures below { IfOk result (λ given. All (λ seed. seed.0 < length seeds) given.items) }
{
    let mut given = Vec::new(alloc);
    let mut number = 0u32;
    for seed in seeds.into_vec() {
        add_seed(&mut given, number, seed)?;
        number = number.checked_add(1).ok_or(NoMemory)?;
    }
    Ok(given)
}

fn add_seed(given: &mut Vec<(u32, Bytes)>, number: u32, seed: Option<Bytes>) -> Result<(), NoMemory>
    ensures { OnOk result (given.new.items ≡ with_seed given.old.items number seed) }
{
    if let Some(body) = seed {
        given.push((number, body))?;
    }
    Ok(())
}
