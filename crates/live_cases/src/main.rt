//! Cases of servers with connections side by side, which no words of a line show: an input line is a case, and its answer the status
//! of the run and what each connection was sent. The projects are those in `data/`.
#![tactic(auto)]

mod case;
mod fault;
mod gate;
mod held;
mod loopback;
mod project;
mod served;
mod stream;
mod text;

use case::answer_line;
use std::io;
use std::sync::Wait;
use std::thread::Threads;

fn main(rt: HostRuntime) -> io::Result<()> {
    answer_lines(&rt, &rt)
}

// `threads` is the runtime again, of which `main` alone knows that it has threads.
fn answer_lines<R: Threads + Wait + Sync + AllocGlobal>(
    rt: &HostRuntime,
    threads: &R,
) -> io::Result<()> {
    for line in rt.lines(rt.alloc()) {
        let line = line?;
        match answer_line(rt, threads, line.as_str()) {
            Ok(answer) => {
                let answer = answer.as_str();
                println!(rt; "{answer}")?;
            }
            Err(fault) => println!(rt; "{fault}")?,
        }
    }
    Ok(())
}
