ghost use Rattle.std.specs.Prelude.{◌≡◌, [], IfErr, IfOk, IfSome, true};
ghost use Rattle.std.specs.Io.KnownBytes.{IsAtEnd};
ghost use Rattle.lk_val.specs.Memory.{UnlessMemory};
ghost use Rattle.lk_val.specs.Years.{IsMomentInYears};
ghost use Rattle.lk_ask.specs.Asks.{is_no_memory};
ghost use Rattle.lk_edition.specs.Histories.{Stands};
ghost use Rattle.lk_edition.specs.Offices.{Begins, standing_in};
ghost use Rattle.lk_session.specs.Servers.{keeper_in};
ghost use Rattle.lk_answer.specs.Replies.{IsReplied};
ghost use Rattle.lk_serve.specs.Opened.{HasOpened};
ghost use Rattle.lk_serve.specs.Openings.{HasProject};
ghost use Rattle.lk_serve.specs.Queries.{IsAnswered, IsQueried, OverEdition, TellsSome};
ghost use Rattle.lk_serve.specs.Replies.{ComesUnread, printed_answer};
ghost use Rattle.lk_serve.specs.Runs.{IsAskedOnce, next_moment};
ghost use Rattle.lk_serve.specs.Stops.{ComesFirst, HasStopCause};
ghost use Rattle.lk_serve.specs.declared.replies.Status.{Status};
ghost use Rattle.lk_serve.specs.declared.stops.Stop.{Stop};

use crate::body::read_body;
use crate::opening::{DataFiles, Opened, Unserved, Why, open_office};
use crate::replies::{Reply, answered, long, refused};
use crate::stops::Stop;
use lk_answer::{Scratch, answers_are_of_one_snapshot, ask};
use lk_ask::AskFault;
use lk_edition::{Edition, Office};
use lk_io::{Clock, Files, Source};
use lk_ledger::Keeper;
use lk_types::Reply as Answered;
use lk_val::{NoMemory, Text};
use std::alloc::Global;

/// A reply, or why a run stopped before it had one, and the store, handed back.
#[derive(Drop)]
pub struct Replied<K> {
    pub reply: Result<Reply, Stop>,
    pub keeper: K,
}

/// The reply to a caller's query on an explore of the project that the files are: its answer, its refusal, or the line on why
/// the project does not open. It opens over the store, which it hands back with what it held; the clock is asked once, at the
/// opening, and the input is read last. (lookd)
#[tactic(auto, using(crate::proofs::MomentLaws::queried_then, crate::proofs::MomentLaws::unqueried_then, crate::proofs::MomentLaws::input_opened))]
pub fn query<F: Files, K: Keeper, I: Source, C: Clock>(
    alloc: Global,
    user: &Text,
    explore: &Text,
    files: &mut F,
    keeper: K,
    input: &mut I,
    clock: &mut C,
) -> Replied<K>
    ensures reply { IfOk result.reply (λ reply. IfSome (F.told files.old) (λ told.
        IsQueried told (Begins (K.held keeper) (K.handed keeper)) user.now explore.now (I.left input.old) (next_moment (C.moments clock.old)) reply)) }
    ensures kept { K.held result.keeper ≡ K.held keeper }
    ensures files { HasStopCause Stop.Files (F.faults files.old) (F.faults files.new) result.reply }
    ensures input { HasStopCause Stop.Input (I.faults input.old) (I.faults input.new) result.reply }
    ensures store { HasStopCause Stop.Store (K.faults keeper) (K.faults result.keeper) result.reply }
    ensures opened { IfErr result.reply (λ stop. stop ≡ Stop.Input →
        HasOpened (F.told files.old) (Begins (K.held keeper) (K.handed keeper)) (next_moment (C.moments clock.old))) }
    ensures project { IfErr result.reply (λ stop. stop ≡ Stop.Store → IfSome (F.told files.old) HasProject) }
    ensures tells { IfOk result.reply TellsSome }
    ensures status { IfOk result.reply (λ reply. reply.status ≡ Status.Usage → ⊥) }
    ensures whole { IfOk result.reply (λ reply. reply.status ≡ Status.Done → IsAtEnd (I.left input.new)) }
    ensures unread { IfOk result.reply (λ reply.
        ComesUnread reply.status → I.left input.new ≡ I.left input.old) }
    ensures untaken { IfErr result.reply (λ stop. ComesFirst stop → I.left input.new ≡ I.left input.old) }
    ensures clock { IsAskedOnce (C.moments clock.old) (C.moments clock.new) }
    ensures same { F.told files.new ≡ F.told files.old }
{
    match open_office(alloc, DataFiles::Read, files, keeper, clock) {
        Ok(Opened { office, now }) => over_office(alloc, office, user, explore, input, now),
        Err(Unserved { why, keeper }) => match why {
            Why::Told(line) => Replied {
                reply: Ok(line),
                keeper,
            },
            Why::Store => Replied {
                reply: Err(Stop::Store),
                keeper,
            },
            Why::Files => Replied {
                reply: Err(Stop::Files),
                keeper,
            },
            Why::Memory => Replied {
                reply: Err(Stop::Memory),
                keeper,
            },
        },
    }
}

// Over the server, of which the store is handed back: the input is the query.
fn over_office<K: Keeper, I: Source>(
    alloc: Global,
    office: Office<K>,
    user: &Text,
    explore: &Text,
    input: &mut I,
    now: i64,
) -> Replied<K>
    requires moment { IsMomentInYears now }
    requires stands { Stands (standing_in office) [] }
    ensures reply { IfOk result.reply (OverEdition (standing_in office) user.now explore.now (I.left input.old) now) }
    ensures keeper { result.keeper ≡ keeper_in office }
    ensures cause { HasStopCause Stop.Input (I.faults input.old) (I.faults input.new) result.reply }
    ensures first { IfErr result.reply (λ stop. ComesFirst stop → ⊥) }
    ensures tells { IfOk result.reply TellsSome }
    ensures whole { IfOk result.reply (λ reply. reply.status ≡ Status.Done → IsAtEnd (I.left input.new)) }
{
    let reply = ask_office(alloc, &office, user, explore, input, now);
    Replied {
        reply,
        keeper: office.close(),
    }
}

// Over the present edition of the server.
fn ask_office<K: Keeper, I: Source>(
    alloc: Global,
    office: &Office<K>,
    user: &Text,
    explore: &Text,
    input: &mut I,
    now: i64,
) -> Result<Reply, Stop>
    requires moment { IsMomentInYears now }
    requires stands { Stands (standing_in office.now) [] }
    ensures reply { IfOk result (OverEdition (standing_in office.now) user.now explore.now (I.left input.old) now) }
    ensures cause { HasStopCause Stop.Input (I.faults input.old) (I.faults input.new) result }
    ensures first { IfErr result (λ stop. ComesFirst stop → ⊥) }
    ensures tells { IfOk result TellsSome }
    ensures whole { IfOk result (λ reply. reply.status ≡ Status.Done → IsAtEnd (I.left input.new)) }
{
    let edition = office.edition()?;
    over_edition(alloc, &*edition, user, explore, input, now)
}

// Over the edition: the input is the query.
fn over_edition<I: Source>(
    alloc: Global,
    edition: &Edition,
    user: &Text,
    explore: &Text,
    input: &mut I,
    now: i64,
) -> Result<Reply, Stop>
    requires moment { IsMomentInYears now }
    requires stands { Stands edition.now [] }
    ensures reply { IfOk result (OverEdition edition.now user.now explore.now (I.left input.old) now) }
    ensures cause { HasStopCause Stop.Input (I.faults input.old) (I.faults input.new) result }
    ensures first { IfErr result (λ stop. ComesFirst stop → ⊥) }
    ensures tells { IfOk result TellsSome }
    ensures whole { IfOk result (λ reply. reply.status ≡ Status.Done → IsAtEnd (I.left input.new)) }
{
    match read_body(alloc, input)? {
        Some(body) => Ok(answer(alloc, edition, user, explore, body.as_slice(), now)?),
        None => Ok(long(alloc)?),
    }
}

// What the body asks of the edition.
fn answer(
    alloc: Global,
    edition: &Edition,
    user: &Text,
    explore: &Text,
    body: &[u8],
    now: i64,
) -> Result<Reply, NoMemory>
    requires moment { IsMomentInYears now }
    requires stands { Stands edition.now [] }
    ensures reply { IfOk result (IsAnswered edition.now user.now explore.now now body.now) }
    ensures tells { IfOk result TellsSome }
    ensures read { IfOk result (λ reply. ComesUnread reply.status → ⊥) }
{
    match ask_edition(alloc, edition, user, explore, body, now) {
        Ok(answer) => Ok(answered(answer)),
        Err(AskFault::NoMemory) => Err(NoMemory),
        Err(fault) => refused(alloc, &fault),
    }
}

// The answer to the body, in CSV, or its refusal: over the edition's state, which is its history.
fn ask_edition(
    alloc: Global,
    edition: &Edition,
    user: &Text,
    explore: &Text,
    body: &[u8],
    now: i64,
) -> Result<Answered, AskFault>
    requires moment { IsMomentInYears now }
    requires stands { Stands edition.now [] }
    ensures told { UnlessMemory is_no_memory result (IsReplied edition.now [] user.now explore.now body.now now true) }
    ensures tells { IfOk result (λ answer. TellsSome (printed_answer answer)) }
{
    answers_are_of_one_snapshot();
    let mut scratch = Scratch::new();
    ask(alloc, edition, user, explore, body, now, true, &mut scratch)
}
