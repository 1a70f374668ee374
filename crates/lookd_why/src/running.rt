// A run over files, an input and an output.

ghost use Rattle.std.specs.Prelude.{◌≡◌, ◌≢◌, ◌≤◌, IfErr, IfOk, IfSome, false};
ghost use Rattle.lk_val.specs.Years.{IsMomentInYears};
ghost use Rattle.lk_io.specs.Causes.{Rose};
ghost use Rattle.lk_io.specs.Streams.{AppendsFront};
ghost use Rattle.lk_semantics.specs.Resolved.{IsResolved};
ghost use Rattle.lookd_why.specs.Replies.{code_of, usage_reply};
ghost use Rattle.lookd_why.specs.Runs.{HasBegun, HasWritten, IsReply, IsReplyTo, IsWritten, StopsBefore, is_stopped};
ghost use Rattle.lookd_why.specs.Stops.{HasStopCause, NeverStops};
ghost use Rattle.lookd_why.specs.Tellings.{IsAsked, OverInput};
ghost use Rattle.lookd_why.specs.Words.{asked_by};
ghost use Rattle.lookd_why.specs.declared.stop.Stop.{Stop};

use crate::body::read_body;
use crate::reply::{Reply, fault_found, long, usage};
use crate::stop::Stop;
use crate::telling::tell;
use crate::words::{Asked, read_words};
use lk_include::ProjectFault;
use lk_io::{Files, Sink, Source};
use lk_loaded_laws::read_models_are_resolved;
use lk_resolve::{Loaded, load};
use lk_val::Text;
use std::alloc::Global;

// The status where the output failed.
const OUTPUT_FAILED: u8 = 4;

/// Writes the reply to the words, and answers the status: 0 done, 1 a fault of the project, 2 wrong words, 8 a refused query; 3 the
/// input, 4 the output or 7 the files failed, 6 memory was refused. `now` is the query's moment, in seconds from 1970-01-01 00:00:00
/// UTC. (lookd)
#[tactic(auto, using(crate::proofs::RunLaws::has_written, crate::proofs::RunLaws::has_begun))]
pub fn run<F: Files, I: Source, O: Sink>(
    alloc: Global,
    words: &[Text],
    files: &mut F,
    input: &mut I,
    out: &mut O,
    now: i64,
) -> u8
    requires { IsMomentInYears now }
    // The bytes written and the status are those of a reply to the words, as far as what it rests on is told.
    ensures reply { is_stopped result ≡ false →
        HasWritten words.now (F.told files.old) (I.left input.old) now (O.held out.old) (O.held out.new) result }
    // After a fault of the output a front of them went out; where the run stopped before, nothing did.
    ensures cut { result ≡ 4 →
        HasBegun words.now (F.told files.old) (I.left input.old) now (O.held out.old) (O.held out.new) }
    ensures silent { StopsBefore result → O.held out.new ≡ O.held out.old }
    // A fault of an object comes only where its count rose in this call.
    ensures read { result ≡ 3 → Rose (I.faults input.old) (I.faults input.new) }
    ensures write { result ≡ 4 → Rose (O.faults out.old) (O.faults out.new) }
    ensures files { result ≡ 7 → Rose (F.faults files.old) (F.faults files.new) }
{
    match reply_to(alloc, words, files, input, now) {
        Ok(reply) => write(&reply, out),
        Err(stop) => stop.code(),
    }
}

// Writes the reply; 4 where the output failed.
fn write<O: Sink>(reply: &Reply, out: &mut O) -> u8
    ensures written { result ≢ 4 → IsWritten (O.held out.old) (O.held out.new) reply.now result }
    ensures cut { result ≡ 4 → AppendsFront (O.held out.old) (O.held out.new) reply.now.body }
    ensures cause { result ≡ 4 → Rose (O.faults out.old) (O.faults out.new) }
    ensures status { result ≢ 4 → result ≡ code_of reply.now.status }
{
    match out.put(reply.body.as_slice()) {
        Ok(()) => reply.status.code(),
        Err(_) => OUTPUT_FAILED,
    }
}

// The reply to the words, or why there is none.
#[tactic(auto, unfolding(crate::specs::Runs::IsReply))]
fn reply_to<F: Files, I: Source>(
    alloc: Global,
    words: &[Text],
    files: &mut F,
    input: &mut I,
    now: i64,
) -> Result<Reply, Stop>
    requires { IsMomentInYears now }
    ensures reply { IfOk result (IsReply words.now (F.told files.old) (I.left input.old) now) }
    ensures files { HasStopCause Stop.Files (F.faults files.old) (F.faults files.new) result }
    ensures input { HasStopCause Stop.Input (I.faults input.old) (I.faults input.new) result }
{
    match read_words(words) {
        Asked::Unknown => Ok(usage(alloc)?),
        Asked::Query(user, explore) => ask(alloc, user, explore, files, input, now),
    }
}

// What a caller's query is told over the project that the files are, or the line of the project's first fault.
#[tactic(auto, using(crate::proofs::RunLaws::is_asked))]
fn ask<F: Files, I: Source>(
    alloc: Global,
    user: &Text,
    explore: &Text,
    files: &mut F,
    input: &mut I,
    now: i64,
) -> Result<Reply, Stop>
    requires { IsMomentInYears now }
    ensures reply { IfOk result (λ reply. IfSome (F.told files.old) (λ told.
        IsAsked told user.now explore.now (I.left input.old) now reply)) }
    ensures files { HasStopCause Stop.Files (F.faults files.old) (F.faults files.new) result }
    ensures input { HasStopCause Stop.Input (I.faults input.old) (I.faults input.new) result }
{
    read_models_are_resolved();
    match load(alloc, files) {
        Ok(loaded) => ask_project(alloc, &loaded, user, explore, input, now),
        Err(ProjectFault::Model(line)) => Ok(fault_found(alloc, &line)?),
        Err(ProjectFault::Failed) => Err(Stop::Files),
        Err(ProjectFault::NoMemory) => Err(Stop::Memory),
    }
}

// Over the project: the input is the query.
fn ask_project<I: Source>(
    alloc: Global,
    loaded: &Loaded,
    user: &Text,
    explore: &Text,
    input: &mut I,
    now: i64,
) -> Result<Reply, Stop>
    requires model { IsResolved loaded.now.model }
    requires moment { IsMomentInYears now }
    ensures reply { IfOk result (OverInput loaded.now user.now explore.now (I.left input.old) now) }
    ensures cause { HasStopCause Stop.Input (I.faults input.old) (I.faults input.new) result }
    ensures files { NeverStops Stop.Files result }
{
    match read_body(alloc, input)? {
        Some(body) => Ok(tell(alloc, loaded, user, explore, body.as_slice(), now)?),
        None => Ok(long(alloc)?),
    }
}
