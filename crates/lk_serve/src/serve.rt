ghost use Rattle.std.specs.Prelude.{◌≡◌, ◌≢◌, ◌≤◌, IfErr, IfOk, IfSome, MatchResult, None, Some, ℕ, false, true};
ghost use Rattle.std.specs.Io.KnownBytes.{IsAtEnd};
ghost use Rattle.std.specs.Option.{is_some};
ghost use Rattle.lk_io.specs.Causes.{Rose};
ghost use Rattle.lk_io.specs.Streams.{AppendsFront};
ghost use Rattle.lk_edition.specs.Offices.{Begins};
ghost use Rattle.lk_serve.specs.Checks.{TellsSome};
ghost use Rattle.lk_serve.specs.Opened.{HasOpened};
ghost use Rattle.lk_serve.specs.Openings.{HasProject};
ghost use Rattle.lk_serve.specs.Outcomes.{IsReply};
ghost use Rattle.lk_serve.specs.Queries as queries;
ghost use Rattle.lk_serve.specs.Replies.{ComesUnread, code_of, usage_reply};
ghost use Rattle.lk_serve.specs.Runs.{HasBegun, HasWritten, HasWrittenCheck, HasWrittenQuery, IsAskedOnce, IsStatus, IsUsageStatus, IsWritten, LeavesInput, NeverFall, StopsBefore, is_stopped, next_moment};
ghost use Rattle.lk_serve.specs.Stops.{ComesFirst, HasStopCause};
ghost use Rattle.lk_serve.specs.Listening.{HasListened, HasShut, LeavesDoor};
ghost use Rattle.lk_serve.specs.Scripts.{HasServed, outside};
ghost use Rattle.lk_serve.specs.Words.{IsQuery, IsUnasked, asked_by, check, is_one, is_script, unknown, workers_in};
ghost use Rattle.lk_serve.specs.declared.replies.Status.{Status};
ghost use Rattle.lk_serve.specs.declared.stops.Stop.{Stop};

use crate::checking::check;
use crate::listening::{Ran, listen};
use crate::querying::{Replied, query};
use crate::replies::{Reply, usage};
use crate::script::{Closed, script};
use crate::stops::Stop;
use crate::words::{Command, is_script, read_words, workers_in};
use lk_io::{Clock, Files, Sink, Source};
use lk_ledger::Keeper;
use lk_listen::Door;
use lk_val::Text;
use std::alloc::Global;
use std::sync::Wait;
use std::thread::Threads;

// The status where the output failed.
const OUTPUT_FAILED: u8 = 4;

/// One run of the program: `words` without the program's name, over a folder's files, a store, an input, an output, a door and a
/// clock. It answers the status of the process, and hands the store and the door back: 0 done, 1 a fault of the project or of a batch
/// at opening, 2 wrong words, 3 the input failed, or the door did 1,000 times for each worker, 4 the output failed, 5 the store failed
/// at opening, 6 want of memory, 7 the files failed, 8 a refused query, 9 and 10 a session that ended inside a request or after a head
/// that can't be read, and after 100,000 replies. Words that ask for connections may wait as long as the door does. (lookd)
pub fn run<
    R: Threads + Wait + Sync,
    F: Files,
    K: Keeper + Drop + Send,
    I: Source,
    O: Sink,
    D: Door + Drop,
    C: Clock + Drop,
>(
    rt: &R,
    alloc: Global,
    words: &[Text],
    files: &mut F,
    keeper: K,
    input: &mut I,
    out: &mut O,
    door: D,
    clock: &mut C,
) -> Ran<K, D>
    // Words that ask for one reply: the bytes written and the status are those of a reply to them, as far as what it rests on is
    // told: nothing for wrong words, the files for a check and for a project with a fault, and else the store, the input and the
    // moment too.
    ensures reply { is_one (asked_by words.now) ≡ true → is_stopped result.status ≡ false
        → HasWritten words.now (F.told files.old) (Begins (K.held keeper) (K.handed keeper)) (I.left input.old)
        (next_moment (C.moments clock.old)) (O.held out.old) (O.held out.new) result.status }
    // After a fault of the output a front of them went out; where the run stopped before, nothing did.
    ensures cut { is_one (asked_by words.now) ≡ true → result.status ≡ 4
        → HasBegun words.now (F.told files.old) (Begins (K.held keeper) (K.handed keeper)) (I.left input.old)
        (next_moment (C.moments clock.old)) (O.held out.old) (O.held out.new) }
    ensures silent { is_one (asked_by words.now) ≡ true → StopsBefore result.status → O.held out.new ≡ O.held out.old }
    // The input is read where the project has opened, and the store where the project's files have no line.
    ensures opened { is_one (asked_by words.now) ≡ true → result.status ≡ 3
        → HasOpened (F.told files.old) (Begins (K.held keeper) (K.handed keeper)) (next_moment (C.moments clock.old)) }
    ensures project { is_one (asked_by words.now) ≡ true → result.status ≡ 5 → IfSome (F.told files.old) HasProject }
    // Words that ask to serve: a session of the server that the files open over what the store held, or the line on why they
    // open none.
    ensures script { is_script (asked_by words.now) ≡ true → HasServed (F.told files.old) (Begins (K.held keeper) (K.handed keeper))
        (outside (K.held keeper) (K.faults keeper) (I.left input.old) (O.held out.old) (C.moments clock.old))
        (outside (K.held result.keeper) (K.faults result.keeper) (I.left input.new) (O.held out.new) (C.moments clock.new))
        result.status }
    // Words that ask for connections: the server that the files open over what the store held serves those of the door until each
    // worker has ended, or the line goes out on why they open none. What a connection's replies are is said by `serve_link` of
    // `lk_live`, and by `serve_links` of `lk_door` of several.
    ensures listened { (workers : ℕ) → workers_in (asked_by words.now) ≡ Some workers
        → HasListened (F.told files.old) (Begins (K.held keeper) (K.handed keeper))
        (outside (K.held keeper) (K.faults keeper) None (O.held out.old) (C.moments clock.old))
        (outside (K.held result.keeper) (K.faults result.keeper) None (O.held out.new) (C.moments clock.new))
        result.status (HasShut workers (D.faults door) (D.faults result.door) (D.ended result.door) result.status) }
    ensures door { LeavesDoor result.status → result.door ≡ door }
    ensures unopened_door { workers_in (asked_by words.now) ≡ None → result.door ≡ door }

    // A fault of an object comes only where its count rose in this call.
    ensures read { workers_in (asked_by words.now) ≡ None → result.status ≡ 3 → Rose (I.faults input.old) (I.faults input.new) }
    ensures write { result.status ≡ 4 → Rose (O.faults out.old) (O.faults out.new) }
    ensures store { result.status ≡ 5 → Rose (K.faults keeper) (K.faults result.keeper) }
    ensures files { result.status ≡ 7 → Rose (F.faults files.old) (F.faults files.new) }
    ensures counts { NeverFall (F.faults files.old) (F.faults files.new)
        (I.faults input.old) (I.faults input.new) (O.faults out.old) (O.faults out.new) }
    ensures kept_count { workers_in (asked_by words.now) ≡ None → K.faults keeper ≤ K.faults result.keeper }

    // What holds whether or not the objects tell.
    ensures status { is_one (asked_by words.now) ≡ true → IsStatus result.status }
    ensures opens { is_one (asked_by words.now) ≡ true → result.status ≡ 5 → IsQuery (asked_by words.now) }
    ensures kept { is_one (asked_by words.now) ≡ true → K.held result.keeper ≡ K.held keeper }
    ensures untouched { IsUnasked (asked_by words.now) → result.keeper ≡ keeper }
    ensures usage { result.status ≡ 2 → asked_by words.now ≡ unknown }
    ensures usage_line { result.status ≡ 2 → IsWritten (O.held out.old) (O.held out.new) usage_reply result.status }
    ensures wrong_words { asked_by words.now ≡ unknown → IsUsageStatus result.status }
    ensures checked { asked_by words.now ≡ check → is_stopped result.status ≡ false →
        HasWrittenCheck (O.held out.old) (O.held out.new) result.status }
    ensures queried { IsQuery (asked_by words.now) → is_stopped result.status ≡ false →
        HasWrittenQuery (O.held out.old) (O.held out.new) result.status }
    ensures unused { asked_by words.now ≡ unknown → F.faults files.new ≡ F.faults files.old }
    ensures unasked { IsUnasked (asked_by words.now) →
        (I.faults input.new ≡ I.faults input.old) × (I.left input.new ≡ I.left input.old) }
    ensures clock { is_one (asked_by words.now) ≡ true → IsAskedOnce (C.moments clock.old) (C.moments clock.new) }
    ensures timeless { IsUnasked (asked_by words.now) → C.moments clock.new ≡ C.moments clock.old }
    ensures whole { result.status ≡ 0 → IsQuery (asked_by words.now) → IsAtEnd (I.left input.new) }
    ensures untaken { LeavesInput result.status → I.left input.new ≡ I.left input.old }
    ensures unread { is_some (workers_in (asked_by words.now)) ≡ true →
        (I.faults input.new ≡ I.faults input.old) × (I.left input.new ≡ I.left input.old) }
    ensures same { F.told files.new ≡ F.told files.old }
{
    if let Some(workers) = workers_in(words) {
        return listen(rt, alloc, workers.count, files, keeper, out, door, clock);
    }
    if is_script(words) {
        let Closed { status, keeper } = script(alloc, files, keeper, input, out, clock);
        return Ran {
            status,
            keeper,
            door,
        };
    }
    let Closed { status, keeper } = answer(alloc, words, files, keeper, input, out, clock);
    Ran {
        status,
        keeper,
        door,
    }
}

// The same of words that ask for one reply.
#[tactic(auto, using(crate::proofs::RunLaws::has_written, crate::proofs::RunLaws::has_begun, crate::proofs::RunLaws::has_written_check, crate::proofs::RunLaws::has_written_query))]
fn answer<F: Files, K: Keeper, I: Source, O: Sink, C: Clock>(
    alloc: Global,
    words: &[Text],
    files: &mut F,
    keeper: K,
    input: &mut I,
    out: &mut O,
    clock: &mut C,
) -> Closed<K>
    requires { is_one (asked_by words.now) ≡ true }
    // The bytes written and the status are those of a reply to the words, as far as what it rests on is told: nothing
    // for wrong words, the files for a check and for a project with a fault, and else the store, the input and the moment too.
    ensures reply { is_stopped result.status ≡ false → HasWritten words.now (F.told files.old) (Begins (K.held keeper) (K.handed keeper)) (I.left input.old)
        (next_moment (C.moments clock.old)) (O.held out.old) (O.held out.new) result.status }
    // After a fault of the output a front of them went out; where the run stopped before, nothing did.
    ensures cut { result.status ≡ 4 → HasBegun words.now (F.told files.old) (Begins (K.held keeper) (K.handed keeper)) (I.left input.old)
        (next_moment (C.moments clock.old)) (O.held out.old) (O.held out.new) }
    ensures silent { StopsBefore result.status → O.held out.new ≡ O.held out.old }
    ensures opened { result.status ≡ 3 → HasOpened (F.told files.old) (Begins (K.held keeper) (K.handed keeper)) (next_moment (C.moments clock.old)) }
    ensures project { result.status ≡ 5 → IfSome (F.told files.old) HasProject }

    // A fault of an object comes only where its count rose in this call.
    ensures read { result.status ≡ 3 → Rose (I.faults input.old) (I.faults input.new) }
    ensures write { result.status ≡ 4 → Rose (O.faults out.old) (O.faults out.new) }
    ensures store { result.status ≡ 5 → Rose (K.faults keeper) (K.faults result.keeper) }
    ensures files { result.status ≡ 7 → Rose (F.faults files.old) (F.faults files.new) }
    ensures counts { NeverFall (F.faults files.old) (F.faults files.new)
        (I.faults input.old) (I.faults input.new) (O.faults out.old) (O.faults out.new) }
    ensures kept_count { K.faults keeper ≤ K.faults result.keeper }

    // What holds whether or not the objects tell.
    ensures status { IsStatus result.status }
    ensures opens { result.status ≡ 5 → IsQuery (asked_by words.now) }
    ensures kept { K.held result.keeper ≡ K.held keeper }
    ensures untouched { IsUnasked (asked_by words.now) → result.keeper ≡ keeper }
    ensures usage { result.status ≡ 2 → asked_by words.now ≡ unknown }
    ensures usage_line { result.status ≡ 2 → IsWritten (O.held out.old) (O.held out.new) usage_reply result.status }
    ensures wrong_words { asked_by words.now ≡ unknown → IsUsageStatus result.status }
    ensures checked { asked_by words.now ≡ check → is_stopped result.status ≡ false →
        HasWrittenCheck (O.held out.old) (O.held out.new) result.status }
    ensures queried { IsQuery (asked_by words.now) → is_stopped result.status ≡ false →
        HasWrittenQuery (O.held out.old) (O.held out.new) result.status }
    ensures unused { asked_by words.now ≡ unknown → F.faults files.new ≡ F.faults files.old }
    ensures unasked { IsUnasked (asked_by words.now) →
        (I.faults input.new ≡ I.faults input.old) × (I.left input.new ≡ I.left input.old) }
    ensures clock { IsAskedOnce (C.moments clock.old) (C.moments clock.new) }
    ensures timeless { IsUnasked (asked_by words.now) → C.moments clock.new ≡ C.moments clock.old }
    ensures whole { result.status ≡ 0 → IsQuery (asked_by words.now) → IsAtEnd (I.left input.new) }
    ensures untaken { LeavesInput result.status → I.left input.new ≡ I.left input.old }
    ensures same { F.told files.new ≡ F.told files.old }
{
    let Replied { reply, keeper } = reply_to(alloc, words, files, keeper, input, clock);
    match reply {
        Ok(reply) => Closed {
            status: write(&reply, out),
            keeper,
        },
        Err(stop) => Closed {
            status: stop.code(),
            keeper,
        },
    }
}

/// Writes the reply; 4 where the output failed.
pub(crate) fn write<O: Sink>(reply: &Reply, out: &mut O) -> u8
    ensures written { result ≢ 4 → IsWritten (O.held out.old) (O.held out.new) reply.now result }
    ensures cut { result ≡ 4 → AppendsFront (O.held out.old) (O.held out.new) reply.now.body }
    ensures cause { result ≡ 4 → Rose (O.faults out.old) (O.faults out.new) }
    ensures later { O.faults out.old ≤ O.faults out.new }
    ensures status { result ≢ 4 → result ≡ code_of reply.now.status }
{
    match out.put(reply.body.as_slice()) {
        Ok(()) => reply.status.code(),
        Err(_) => OUTPUT_FAILED,
    }
}

// The reply to the words, or why there is none, and the store.
#[tactic(auto, unfolding(crate::specs::Outcomes::IsReply))]
fn reply_to<F: Files, K: Keeper, I: Source, C: Clock>(
    alloc: Global,
    words: &[Text],
    files: &mut F,
    keeper: K,
    input: &mut I,
    clock: &mut C,
) -> Replied<K>
    requires { is_one (asked_by words.now) ≡ true }
    ensures reply { IfOk result.reply (IsReply words.now (F.told files.old) (Begins (K.held keeper) (K.handed keeper))
        (I.left input.old) (next_moment (C.moments clock.old))) }
    ensures opened { IfErr result.reply (λ stop. stop ≡ Stop.Input →
        HasOpened (F.told files.old) (Begins (K.held keeper) (K.handed keeper)) (next_moment (C.moments clock.old))) }
    ensures project { IfErr result.reply (λ stop. stop ≡ Stop.Store → IfSome (F.told files.old) HasProject) }
    ensures opens { IfErr result.reply (λ stop. stop ≡ Stop.Store → IsQuery (asked_by words.now)) }
    ensures files { HasStopCause Stop.Files (F.faults files.old) (F.faults files.new) result.reply }
    ensures input { HasStopCause Stop.Input (I.faults input.old) (I.faults input.new) result.reply }
    ensures store { HasStopCause Stop.Store (K.faults keeper) (K.faults result.keeper) result.reply }
    ensures kept { K.held result.keeper ≡ K.held keeper }
    ensures untouched { IsUnasked (asked_by words.now) → result.keeper ≡ keeper }
    ensures usage { IfOk result.reply (λ reply. reply.status ≡ Status.Usage → asked_by words.now ≡ unknown) }
    ensures usage_line { IfOk result.reply (λ reply. reply.status ≡ Status.Usage → reply ≡ usage_reply) }
    ensures unused { asked_by words.now ≡ unknown → F.faults files.new ≡ F.faults files.old }
    ensures unasked { IsUnasked (asked_by words.now) →
        (I.faults input.new ≡ I.faults input.old) × (I.left input.new ≡ I.left input.old) }
    ensures wrong_words { asked_by words.now ≡ unknown →
        MatchResult result.reply (λ reply. reply.status ≡ Status.Usage) (λ stop. stop ≡ Stop.Memory) }
    ensures checked { asked_by words.now ≡ check → IfOk result.reply TellsSome }
    ensures queried { IsQuery (asked_by words.now) → IfOk result.reply queries.TellsSome }
    ensures clock { IsAskedOnce (C.moments clock.old) (C.moments clock.new) }
    ensures timeless { IsUnasked (asked_by words.now) → C.moments clock.new ≡ C.moments clock.old }
    ensures whole { IfOk result.reply (λ reply. reply.status ≡ Status.Done → IsQuery (asked_by words.now)
        → IsAtEnd (I.left input.new)) }
    ensures unread { IfOk result.reply (λ reply.
        ComesUnread reply.status → I.left input.new ≡ I.left input.old) }
    ensures untaken { IfErr result.reply (λ stop. ComesFirst stop → I.left input.new ≡ I.left input.old) }
    ensures same { F.told files.new ≡ F.told files.old }
{
    match read_words(words) {
        Command::Unknown => Replied {
            reply: usage_or_stop(alloc),
            keeper,
        },
        Command::Check => Replied {
            reply: check(alloc, files),
            keeper,
        },
        Command::Query(user, explore) => {
            query(alloc, user, explore, files, keeper, input, clock)
        }
        Command::Script | Command::Serve(..) => unreachable!(),
    }
}

// The usage line.
fn usage_or_stop(alloc: Global) -> Result<Reply, Stop>
    ensures line { IfOk result (λ reply. reply ≡ usage_reply) }
    ensures memory { IfErr result (λ stop. stop ≡ Stop.Memory) }
{
    Ok(usage(alloc)?)
}
