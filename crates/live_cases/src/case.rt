use crate::fault::CaseFault;
use crate::held::answer_held;
use crate::loopback::answer_loopback;
use crate::served::answer_served;
use lk_val::Text;
use std::sync::Wait;
use std::thread::Threads;

/// The answer of a line. `links PROJECT WORKERS COUNT | REQUESTS` serves so many connections that send these requests, over a store that
/// holds the project's data files as batches, and `empty` in place of `links` does over an empty one. `held PROJECT | REQUESTS |
/// REQUESTS` serves two connections, of which the first one's first query is held until one of the second has been answered over a later
/// snapshot. `loopback PROJECT WORKERS | REQUESTS` asks by TCP. In requests, `\r` and `\n` stand for line ends. A heading and an empty
/// line stand as they are.
pub fn answer_line<R: Threads + Wait + Sync + AllocGlobal>(
    rt: &HostRuntime,
    threads: &R,
    line: &str,
) -> Result<Text, CaseFault> {
    if line.is_empty() || line.starts_with("#") {
        return Ok(Text::from_str(rt.alloc(), line)?);
    }
    let (call, requests) = line.split_once(" | ").ok_or(CaseFault::NoSuchCase)?;
    let (task, call) = call.split_once(" ").ok_or(CaseFault::NoSuchCase)?;
    match task {
        "links" => answer_served(rt, threads, call, requests, true),
        "empty" => answer_served(rt, threads, call, requests, false),
        "held" => answer_held(rt, threads, call, requests),
        "loopback" => answer_loopback(rt, threads, call, requests),
        _ => Err(CaseFault::NoSuchCase),
    }
}
