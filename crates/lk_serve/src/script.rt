ghost use Rattle.std.specs.Prelude.{◌≡◌, ◌≤◌, [], IfSome};
ghost use Rattle.lk_io.specs.Causes.{Rose};
ghost use Rattle.lk_edition.specs.Histories.{Stands};
ghost use Rattle.lk_edition.specs.Offices.{Begins, standing_in};
ghost use Rattle.lk_turns.specs.Steps.{NeverFall};
ghost use Rattle.lk_turns.specs.declared.ended.Ended.{Ended};
ghost use Rattle.lk_session.specs.Recorded.{IsRecorded};
ghost use Rattle.lk_session.specs.Servers.{keeper_in, server};
ghost use Rattle.lk_serve.specs.Openings.{IsFaulty};
ghost use Rattle.lk_serve.specs.Runs.{LeavesInput};
ghost use Rattle.lk_serve.specs.Scripts.{HasEnded, HasServed, IsSessionStatus, ended_code, outside};
ghost use Rattle.lk_serve.specs.Tellings.{IsTelling};
ghost use Rattle.lk_serve.specs.declared.opening.Why.{Why};

use crate::console::Console;
use crate::opening::{DataFiles, Opened, Unserved, Why, open_office};
use crate::serve::write;
use lk_edition::Office;
use lk_io::{Clock, Files, Sink, Source};
use lk_ledger::Keeper;
use lk_session::{Ended, session};
use std::alloc::Global;

/// How a run that has no door ended: the status of the process, and the store, handed back.
#[derive(Drop)]
pub(crate) struct Closed<K> {
    pub status: u8,
    pub keeper: K,
}

// Serves the requests of a session.
fn serve_requests<K: Keeper, I: Source, O: Sink, C: Clock>(
    alloc: Global,
    office: &mut Office<K>,
    input: &mut I,
    out: &mut O,
    clock: &mut C,
) -> Ended
    requires { Stands (standing_in office.old) [] }
    ensures run { IfSome (I.left input.old) (λ bytes. IsRecorded
        (server (standing_in office.old) (K.held (keeper_in office.old)) (K.faults (keeper_in office.old)) (C.moments clock.old)) [] bytes
        (O.held out.old) (O.held out.new)
        (server (standing_in office.new) (K.held (keeper_in office.new)) (K.faults (keeper_in office.new)) (C.moments clock.new)) (I.left input.new) result) }
    ensures read { result ≡ Ended.ReadFault → Rose (I.faults input.old) (I.faults input.new) }
    ensures write { result ≡ Ended.WriteFault → Rose (O.faults out.old) (O.faults out.new) }
    ensures counts { NeverFall (K.faults (keeper_in office.old)) (K.faults (keeper_in office.new))
        (I.faults input.old) (I.faults input.new) (O.faults out.old) (O.faults out.new) }
{
    let mut console = Console { input, out };
    session(alloc, office, &mut console, clock)
}

// The status of the process after a session.
fn code_of(ended: Ended) -> u8
    ensures code { result ≡ ended_code ended }
    ensures status { IsSessionStatus result }
{
    match ended {
        Ended::Clean => 0,
        Ended::ReadFault => 3,
        Ended::WriteFault => 4,
        Ended::NoMemory => 6,
        Ended::Truncated | Ended::BadHead => 9,
        Ended::Spent => 10,
    }
}

// Serves the requests of a session, and hands the store back.
fn serve<K: Keeper, I: Source, O: Sink, C: Clock>(
    alloc: Global,
    office: Office<K>,
    input: &mut I,
    out: &mut O,
    clock: &mut C,
) -> Closed<K>
    requires { Stands (standing_in office) [] }
    ensures served { HasEnded (standing_in office)
        (outside (K.held (keeper_in office)) (K.faults (keeper_in office)) (I.left input.old) (O.held out.old) (C.moments clock.old))
        (outside (K.held result.keeper) (K.faults result.keeper) (I.left input.new) (O.held out.new) (C.moments clock.new))
        result.status }
    ensures read { result.status ≡ 3 → Rose (I.faults input.old) (I.faults input.new) }
    ensures write { result.status ≡ 4 → Rose (O.faults out.old) (O.faults out.new) }
    ensures status { IsSessionStatus result.status }
    ensures counts { NeverFall (K.faults (keeper_in office)) (K.faults result.keeper)
        (I.faults input.old) (I.faults input.new) (O.faults out.old) (O.faults out.new) }
{
    let mut office = office;
    let ended = serve_requests(alloc, &mut office, input, out, clock);
    Closed {
        status: code_of(ended),
        keeper: office.close(),
    }
}

// Writes why a server did not open, where there is a line on it, and gives the status of the process.
pub(crate) fn tell<O: Sink>(why: Why, out: &mut O) -> u8
    requires { IsFaulty why }
    ensures told { IsTelling (O.held out.old) (O.held out.new) why result }
    ensures write { result ≡ 4 → Rose (O.faults out.old) (O.faults out.new) }
    ensures never { result ≡ 3 → ⊥ }
    ensures usage { result ≡ 2 → ⊥ }
    ensures store { result ≡ 5 → why ≡ Why.Store }
    ensures files { result ≡ 7 → why ≡ Why.Files }
    ensures later { O.faults out.old ≤ O.faults out.new }
{
    match why {
        Why::Told(reply) => write(&reply, out),
        Why::Store => 5,
        Why::Memory => 6,
        Why::Files => 7,
    }
}

/// Opens the server over the folder's project and the store at the clock's next moment, and serves the requests of the input until
/// the session ends. (lookd)
#[tactic(auto, using(crate::proofs::ScriptLaws::served, crate::proofs::ScriptLaws::not_opened))]
pub(crate) fn script<F: Files, K: Keeper, I: Source, O: Sink, C: Clock>(
    alloc: Global,
    files: &mut F,
    keeper: K,
    input: &mut I,
    out: &mut O,
    clock: &mut C,
) -> Closed<K>
    ensures served { HasServed (F.told files.old) (Begins (K.held keeper) (K.handed keeper))
        (outside (K.held keeper) (K.faults keeper) (I.left input.old) (O.held out.old) (C.moments clock.old))
        (outside (K.held result.keeper) (K.faults result.keeper) (I.left input.new) (O.held out.new) (C.moments clock.new))
        result.status }
    ensures read { result.status ≡ 3 → Rose (I.faults input.old) (I.faults input.new) }
    ensures write { result.status ≡ 4 → Rose (O.faults out.old) (O.faults out.new) }
    ensures store { result.status ≡ 5 → Rose (K.faults keeper) (K.faults result.keeper) }
    ensures files { result.status ≡ 7 → Rose (F.faults files.old) (F.faults files.new) }
    ensures counts { NeverFall (K.faults keeper) (K.faults result.keeper)
        (I.faults input.old) (I.faults input.new) (O.faults out.old) (O.faults out.new) }
    ensures usage { result.status ≡ 2 → ⊥ }
    ensures untaken { LeavesInput result.status → I.left input.new ≡ I.left input.old }
    ensures later { F.faults files.old ≤ F.faults files.new }
    ensures same { F.told files.new ≡ F.told files.old }
{
    match open_office(alloc, DataFiles::Read, files, keeper, clock) {
        Ok(Opened { office, now: _ }) => serve(alloc, office, input, out, clock),
        Err(Unserved { why, keeper }) => Closed {
            status: tell(why, out),
            keeper,
        },
    }
}
