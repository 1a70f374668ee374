use crate::fault::CaseFault;
use crate::fields::parted;
use crate::running::{Base, answer_run};
use crate::saving::answer_store;
use crate::store::Store;
use lk_val::Text;
use std::alloc::Global;
use std::sync::Wait;
use std::thread::Threads;

/// The answer of a line. `with` keeps files, `now` a moment (in seconds from 1970-01-01 00:00:00 UTC) and `outside` what stands
/// around the runs, for the lines behind it. `check`, `query | USER | EXPLORE | BODY`, `script | REQUESTS` and `words | WORDS`
/// run over these files and the line's own: the answer is the status, and what was written on one line. `kept` tells what the
/// store of the last run holds: its number, how many loads and batches, and how many of its calls failed; and `batches` its
/// batches; `door` how many calls of its door failed. `store CALL` calls a store by itself.
pub fn answer_line<R: Threads + Wait + Sync + AllocGlobal>(
    rt: &HostRuntime,
    threads: &R,
    base: &mut Base,
    store: &mut Store,
    line: &str,
) -> Result<Text, CaseFault> {
    let alloc = rt.alloc();
    if line.is_empty() || line.starts_with("#") {
        return Ok(Text::from_str(alloc, line)?);
    }
    if let Some(call) = line.strip_prefix("store ") {
        return answer_store(rt, store, call);
    }
    let (task, fields) = parted(line, " | ");
    match task {
        "check" => answer_run(threads, base, "check d", "", fields),
        "query" => answer_query(threads, base, fields),
        "script" => answer_script(threads, base, fields),
        "words" => {
            let (words, files) = parted(fields, " | ");
            answer_run(threads, base, words, "", files)
        }
        "kept" => Ok(base.kept.copy(alloc)?),
        "batches" => Ok(base.batches.copy(alloc)?),
        "door" => Ok(base.door.copy(alloc)?),
        _ => set(alloc, base, task, fields),
    }
}

fn answer_query<R: Threads + Wait + Sync + AllocGlobal>(
    threads: &R,
    base: &mut Base,
    fields: &str,
) -> Result<Text, CaseFault> {
    let (user, rest) = parted(fields, " | ");
    let (explore, rest) = parted(rest, " | ");
    let (body, files) = parted(rest, " | ");
    let words = format!(in threads.alloc(); "query d {user} {explore}")?;
    answer_run(threads, base, words.as_str(), body, files)
}

fn answer_script<R: Threads + Wait + Sync + AllocGlobal>(
    threads: &R,
    base: &mut Base,
    fields: &str,
) -> Result<Text, CaseFault> {
    let (requests, files) = parted(fields, " | ");
    answer_run(threads, base, "script d", requests, files)
}

// Sets something for the lines behind this one.
fn set(alloc: Global, base: &mut Base, task: &str, fields: &str) -> Result<Text, CaseFault> {
    let answer = Text::from_str(alloc, task)?;
    match task {
        "with" => base.files = Text::from_str(alloc, fields)?,
        "outside" => base.outside = Text::from_str(alloc, fields)?,
        "now" => base.now = fields.parse::<i64>().ok().ok_or(CaseFault::NoSuchCase)?,
        _ => return Err(CaseFault::NoSuchCase),
    }
    Ok(answer)
}
